// How a draft is spent.
ghost use Rattle.book.specs.Facets.{facet_of};
ghost use Rattle.register.specs.Tables.{FacetStands};
ghost use Rattle.register.specs.Registers.{book_of, FilledBy, FiledAlone};

use super::draft::{Draft, Unclosed};
use super::register::Register;
use book::Refusal;
use hull::Hull;

// Files one facet as an object, and answers its number. A refusal leaves the book as it was.
pub(crate) fn enter_one<H: Hull>(
    register: &mut Register<'_, H>,
    numbers: [i64; 9],
) -> Result<u32, Refusal>
    ensures book { FiledAlone (book_of register.old) numbers result (book_of register.new) }
    ensures table { FilledBy (FacetStands H.begun H.grown (facet_of numbers)) register.old register.new result }
{
    let draft = register.start()?;
    let (draft, answer) = draft.facet(register, numbers);
    // A match on either answer, as the draft has to be spent whatever they are.
    match answer {
        Ok(_) => draft.close(register).map_err(Unclosed::refusal),
        Err(why) => match draft.drop(register) {
            Ok(_) => Err(why),
            Err((Draft { mark: _ }, _)) => Err(why),
        },
    }
}
