// What the rows of numbers in a job make.
ghost use Rattle.std.specs.Prelude.{◌≡◌, ◌*◌, ◌^◌, ◌<◌, List, ℤ, MatchOption, MatchResult};
ghost use Rattle.std.proofs.Common.{lit<};
ghost use Rattle.jobtext.specs.Due.{AllNumbered};
ghost use Rattle.placement.specs.Twelve.{InRange as PlacementInRange, entries as placement_entries};
ghost use Rattle.touch.specs.Due.{NotRead};
ghost use Rattle.touch.specs.Facets.{InRange as FacetInRange, entries as facet_entries};

use super::refusal::{Fault, Refusal};
use book::Facet;
use placement::Placement;
use words::Words;

// What a row of so many numbers makes, where they are in range.
pub trait Row<const N: usize>: Sized {
    ghost entries: { Self → List ℤ };

    ghost InRange: { List ℤ → Type 0 };

    fn make(numbers: [i64; N]) -> Option<Self>
        ensures { MatchOption result (InRange numbers.entry → ⊥) (λ r. entries r ≡ numbers.entry) };

    // So many numbers are an array.
    ghost sized: { N * 8 < 2 ^ 63 };
}

impl Row<9> for Facet {
    ghost entries = { facet_entries };

    ghost InRange = { FacetInRange };

    fn make(numbers: [i64; 9]) -> Option<Facet>
        ensures { MatchOption result (FacetInRange numbers → ⊥) (λ f. facet_entries f ≡ numbers) }
    {
        Facet::new(numbers)
    }

    ghost sized = { lit< tt };
}

impl Row<12> for Placement {
    ghost entries = { placement_entries };

    ghost InRange = { PlacementInRange };

    fn make(numbers: [i64; 12]) -> Option<Placement>
        ensures { MatchOption result (PlacementInRange numbers → ⊥) (λ p. placement_entries p ≡ numbers) }
    {
        Placement::new(numbers)
    }

    ghost sized = { lit< tt };
}

// The row that is due. Numbers that are out of range are refused for this fault.
pub(crate) fn read_row<R: Row<N>, const N: usize>(
    input: &mut Words,
    fault: Fault,
) -> Result<R, Refusal>
    ensures { MatchResult result (λ r. AllNumbered input.old.left (R.Row.entries r) input.new.left) (λ e. NotRead N R.Row.InRange fault input.old.left input.old.section input.old.taken e) }
{
    let numbers = input.numbers::<N>()?;
    R::make(numbers).ok_or(Refusal {
        fault,
        blame: input.place(),
    })
}
