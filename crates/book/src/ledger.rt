// What is kept of a stretch of a table besides its places.

// The places of one object: from the first up to the last, which is left out.
#[derive(Clone, Copy)]
pub struct Span {
    pub from: usize,
    pub to: usize,
}

// The objects fill the stretch from its first place on, then come the items of the draft.
#[derive(Clone, Copy)]
pub struct Ledger {
    pub mark: u16,
    // the stretch: its first place, and the place after its last
    pub first: usize,
    pub end: usize,
    // the closed objects, the first of 64 spans: fixed memory, since a register allocates nothing, and an array, so that a ledger can be
    // copied
    pub closed: usize,
    pub spans: [Span; 64],
    // the draft: whether one is open, its first place, the place after its last, and how many of its items no tie has; a flag and no
    // Option, since base and used are the first free place where none is open
    pub drafting: bool,
    pub base: usize,
    pub used: usize,
    pub loose: usize,
}
