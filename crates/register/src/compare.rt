// Comparing two objects.
ghost use Rattle.std.specs.Prelude.{◌≡◌, true, false, MatchOption};
ghost use Rattle.book.specs.Books.{closed, object};
ghost use Rattle.walks.specs.Comparisons.{Listing};
ghost use Rattle.walks.specs.Answers.{Answers};
ghost use Rattle.register.specs.Registers.{book_of};
ghost use Rattle.register.specs.Comparing.{places_of, WalkStored, comparison, compared};

use super::place::Place;
use super::register::Register;
use super::ties::number_below;
use super::walk::walk;
use axes::Axes;
use book::{Refusal, Span};
use hull::Hull;
use placement::Placement;

impl<'t, H: Hull> Register<'t, H> {
    // The places of a closed object, its last item last.
    pub fn object(&self, number: i64) -> Option<&[Place<H>]>
        ensures { MatchOption result (closed (book_of self.now) number ≡ false) (λ s. (closed (book_of self.now) number ≡ true) × (s.now ≡ places_of self.now number)) }
    {
        let k = number_below(number, self.ledger.closed)?;
        let Span { from, to } = self.ledger.spans[k];
        let table = &*self.table;
        Some(&table[from..to])
    }

    // Lists the facet pairs of two objects that no axis parts under the placement, and answers how many pairs and how many tests there
    // were. The numbers of a comparison come one by one, as those of every other call do.
    pub fn compare(
        &self,
        moved: i64,
        standing: i64,
        placement: [i64; 12],
        pairs: &mut [(u32, u32)],
    ) -> Result<(usize, u64), Refusal>
        ensures stored { Answers (book_of self.now) (comparison moved standing placement) (WalkStored H.reaches (places_of self.now moved) (places_of self.now standing)) pairs.old pairs.new (compared result) }
        ensures grown { Answers (book_of self.now) (comparison moved standing placement) (Listing H.begun H.grown H.reaches H.faced H.unrounded (object (book_of self.now) moved) (object (book_of self.now) standing)) pairs.old pairs.new (compared result) }
    {
        let left = self.object(moved).ok_or(Refusal::NoSuchObject)?;
        let right = self.object(standing).ok_or(Refusal::NoSuchObject)?;
        let placement = Placement::new(placement).ok_or(Refusal::PlacementOutOfRange)?;
        walk(&Axes::new(placement), left, right, pairs)
    }
}
