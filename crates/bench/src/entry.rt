// Entering an object into a register.
ghost use Rattle.std.specs.Prelude.{◌≡◌, true};
ghost use Rattle.book.specs.Books.{here};
ghost use Rattle.register.specs.Registers.{book_of};

use super::job::{Job, Piece};
use book::Refusal;
use hull::Hull;
use register::{Draft, Register, Unclosed};

// A draft, and the register whose draft it stays until it is closed or dropped.
pub struct Entry<'r, 't, H: Hull> {
    register: &'r mut Register<'t, H>,
    draft: Draft,
    ghost kept: { here (book_of register.now) draft.mark ≡ true },
}

// The numbers of an item.
pub trait Row: Copy {
    // Enters the item, and answers its number.
    fn enter<'r, 't, H: Hull>(
        self,
        entry: Entry<'r, 't, H>,
    ) -> (Entry<'r, 't, H>, Result<u32, Refusal>);
}

// Nine numbers are a facet.
#[tactic(auto, using(crate::proofs::Drafts::facet_here))]
impl Row for [i64; 9] {
    fn enter<'r, 't, H: Hull>(
        self,
        entry: Entry<'r, 't, H>,
    ) -> (Entry<'r, 't, H>, Result<u32, Refusal>) {
        let Entry { register, draft } = entry;
        let (draft, answer) = draft.facet(register, self);
        (Entry { register, draft }, answer)
    }
}

// Two numbers are a tie.
#[tactic(auto, using(crate::proofs::Drafts::tie_here))]
impl Row for [i64; 2] {
    fn enter<'r, 't, H: Hull>(
        self,
        entry: Entry<'r, 't, H>,
    ) -> (Entry<'r, 't, H>, Result<u32, Refusal>) {
        let Entry { register, draft } = entry;
        let [x, y] = self;
        let (draft, answer) = draft.tie(register, x, y);
        (Entry { register, draft }, answer)
    }
}

impl<'r, 't, H: Hull> Entry<'r, 't, H> {
    // Opens a draft.
    #[tactic(auto, using(crate::proofs::Drafts::start_here))]
    fn start(register: &'r mut Register<'t, H>) -> Result<Entry<'r, 't, H>, Refusal> {
        let draft = register.start()?;
        Ok(Entry { register, draft })
    }

    // Enters the items of the rows, up to the first that is refused.
    fn rows<R: Row>(self, rows: &[R]) -> (Entry<'r, 't, H>, Result<(), Refusal>) {
        let mut entry = self;
        for row in rows {
            let (same, answer) = row.enter(entry);
            entry = same;
            if let Err(why) = answer {
                return (entry, Err(why));
            }
        }
        (entry, Ok(()))
    }
}

// Enters an object, and answers its number. Where an item is refused, the draft is thrown away.
pub(crate) fn enter<H: Hull>(
    register: &mut Register<'_, H>,
    piece: &Piece,
) -> Result<u32, Refusal> {
    let entry = Entry::start(register)?;
    let (entry, facets) = entry.rows(piece.facets.as_slice());
    let (entry, ties) = entry.rows(piece.ties.as_slice());
    let Entry { register, draft } = entry;
    if let Err(why) = facets.and(ties) {
        draft.drop(register).unwrap();
        return Err(why);
    }
    match draft.close(register) {
        Ok(number) => Ok(number),
        Err(Unclosed::PartsLeftOver) => Err(Refusal::PartsLeftOver),
        Err(Unclosed::NotThisDraft(_draft)) => unreachable!(),
    }
}

// Enters the two objects of a job, and answers their numbers. Where the second has neither facets nor ties, both are the first.
pub(crate) fn enter_both<H: Hull>(
    register: &mut Register<'_, H>,
    job: &Job,
) -> Result<(i64, i64), Refusal> {
    let moved = enter(register, &job.moved)?;
    let standing = if job.standing.is_empty() {
        moved
    } else {
        enter(register, &job.standing)?
    };
    Ok((i64::from(moved), i64::from(standing)))
}
