// The rows of a section.
ghost use Rattle.std.specs.Prelude.{◌≡◌, ◌+◌, ◌*◌, ◌^◌, ◌<◌, OnOk, refl};
ghost use Rattle.std.proofs.Common.{lit<};
ghost use Rattle.jobtext.specs.Forms.{Form, facet, tie, placement};
ghost use Rattle.jobtext.specs.Readings.{Reads, row_due};

use book::{Call, Comparison, Request};
use jobtext::Fault;
use words::Words;

// A job's calls carry this mark.
pub const MARK: u16 = 0;

// A row of so many numbers, which makes one request.
pub trait Row<const N: usize> {
    ghost form: { Form };

    // The request that the numbers make.
    fn request(numbers: [i64; N]) -> Request
        ensures { result ≡ form.request numbers.entry };

    ghost wide: { form.width ≡ N };

    // So many numbers are an array.
    ghost sized: { N * 8 < 2 ^ 63 };
}

// Nine numbers are a facet.
pub struct FacetRow;

impl Row<9> for FacetRow {
    ghost form = { facet };

    fn request(numbers: [i64; 9]) -> Request
        ensures { result ≡ facet.request numbers }
    {
        Request::Write(Call::Facet(MARK, numbers))
    }

    ghost wide = { refl };

    ghost sized = { lit< tt };
}

// Two numbers are a tie.
pub struct TieRow;

impl Row<2> for TieRow {
    ghost form = { tie };

    fn request(numbers: [i64; 2]) -> Request
        ensures { result ≡ tie.request numbers }
    {
        Request::Write(Call::Tie(MARK, numbers[0], numbers[1]))
    }

    ghost wide = { refl };

    ghost sized = { lit< tt };
}

// Twelve numbers are a placement of the first object beside the second.
pub struct PlacementRow;

impl Row<12> for PlacementRow {
    ghost form = { placement };

    fn request(numbers: [i64; 12]) -> Request
        ensures { result ≡ placement.request numbers }
    {
        Request::Compare(Comparison {
            moved: 0,
            standing: 1,
            placement: numbers,
        })
    }

    ghost wide = { refl };

    ghost sized = { lit< tt };
}

// A row is due.
pub(crate) fn read_row<R: Row<N>, const N: usize>(input: &mut Words) -> Result<Request, Fault>
    ensures section { input.new.section ≡ input.old.section }
    ensures taken { OnOk result (input.new.taken ≡ input.old.taken + R.Row.form.width) }
    ensures reads { Reads (row_due R.Row.form input.old.section input.old.taken input.old.left) result input.new.left }
{
    Ok(R::request(input.numbers()?))
}
