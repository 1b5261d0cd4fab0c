// Entering a facet.
ghost use Rattle.std.specs.Prelude.{◌≡◌, [], ◌∷◌, fold};
ghost use Rattle.book.specs.declared.call.Call.{Call};
ghost use Rattle.book.specs.Facets.{facet_of};
ghost use Rattle.book.specs.Books.{Said};
ghost use Rattle.register.specs.Tables.{FacetStands};
ghost use Rattle.register.specs.Registers.{book_of, entered, Filled, FilledBy};

use super::draft::Draft;
use super::place::Place;
use super::register::Register;
use book::{Facet, Item, Refusal};
use hull::Hull;

// The hull of a facet.
fn facet_hull<H: Hull>(facet: Facet) -> H
    ensures { result ≡ fold H.grown (H.begun facet.a) (facet.b ∷ facet.c ∷ []) }
{
    H::first(facet.a).more(facet.b).more(facet.c)
}

impl Draft {
    // Enters the facet of nine numbers, three for each corner, and answers its number.
    pub fn facet<H: Hull>(
        self,
        register: &mut Register<'_, H>,
        numbers: [i64; 9],
    ) -> (Draft, Result<u32, Refusal>)
        ensures said { Said (book_of register.old) (Call.Facet self.mark numbers) (entered result.1) (book_of register.new) }
        ensures back { result.0 ≡ self }
        ensures table { Filled register.old register.new (Item.Facet (facet_of numbers)) result.1 }
        ensures place { FilledBy (FacetStands H.begun H.grown (facet_of numbers)) register.old register.new result.1 }
        ensures lent { register.new.table.ghost_name ≡ register.old.table.ghost_name }
    {
        if !register.holds(&self) {
            return (self, Err(Refusal::NotThisDraft));
        }
        // No `?`, here and in tie, as a refusal hands the draft back beside it.
        let Some(facet) = Facet::new(numbers) else {
            return (self, Err(Refusal::OutOfRange));
        };
        if !register.has_room() {
            return (self, Err(Refusal::TableFull));
        }
        let at = register.ledger.used;
        let number = at - register.ledger.base;
        register.table[at] = Place {
            item: Item::Facet(facet),
            height: 0,
            tied: false,
            hull: facet_hull(facet),
        };
        register.ledger.used = at + 1;
        register.ledger.loose += 1;
        (self, Ok(number as u32))
    }
}
