// Facets and the items of a draft.
ghost use Rattle.std.specs.Prelude.{◌≡◌, ◌≤◌, true, false, MatchOption};
ghost use Rattle.book.specs.Facets.{fits_at, corner_from, within, facet_of};

use hull::Corner;

// Three corners, in order.
#[derive(Clone, Copy)]
pub struct Facet {
    pub a: Corner,
    pub b: Corner,
    pub c: Corner,
}

// An item of a draft or an object. A tie names its two parts by their numbers, counted from 0.
#[derive(Clone, Copy)]
pub enum Item {
    Facet(Facet),
    Tie(u32, u32),
}

// The corner of three numbers that stand one after another, where they are in range.
fn corner_at(numbers: &[i64; 9], at: usize) -> Option<Corner>
    requires { at ≤ 6 }
    ensures { MatchOption result (fits_at numbers.now at ≡ false) (λ p. (fits_at numbers.now at ≡ true) × (p ≡ corner_from numbers.now at)) }
{
    Corner::new(numbers[at], numbers[at + 1], numbers[at + 2])
}

impl Facet {
    // The facet of nine numbers, three for each corner, where all are in range.
    pub fn new(numbers: [i64; 9]) -> Option<Facet>
        ensures { MatchOption result (within numbers ≡ false) (λ f. (within numbers ≡ true) × (f ≡ facet_of numbers)) }
    {
        let a = corner_at(&numbers, 0)?;
        let b = corner_at(&numbers, 3)?;
        let c = corner_at(&numbers, 6)?;
        Some(Facet { a, b, c })
    }
}
