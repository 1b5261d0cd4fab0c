// A register over its table.
ghost use Rattle.std.specs.Prelude.{◌≡◌, ℕ, ◌+◌, ◌-◌, ◌<◌, ◌≤◌, min, true, false, length};
ghost use Rattle.book.specs.Limits.{place_limit};
ghost use Rattle.book.specs.Ledgers.{Placed, Counted, Kept, Drafted};
ghost use Rattle.book.specs.Hulls.{GrownOver, GrownOver-prop};
ghost use Rattle.register.specs.Tables.{items_of, heights_of, tieds_of, hulls_of};

use super::place::Place;
use book::Ledger;
use hull::Hull;

// The ledger of the whole table, as far as it is used.
#[derive(Drop)]
pub struct Register<'t, H: Hull> {
    pub(crate) ledger: Ledger,
    pub(crate) table: &'t mut [Place<H>],
    ghost placed: { Placed ledger (length table.now) },
    ghost counted: { Counted ledger },
    ghost kept: { Kept ledger (items_of table.now) },
    ghost paged: { Drafted ledger (items_of table.now) (heights_of table.now) (tieds_of table.now) },
    ghost alone: { (ledger.first ≡ 0) × (ledger.end ≡ min (length table.now) place_limit) },
    // every stored hull is the one grown from its item's corner list
    pub ghost grown: { GrownOver H.begun H.grown ledger (items_of table.now) (hulls_of table.now) } by { GrownOver-prop H.begun H.grown H.code ledger (items_of table.now) (hulls_of table.now) },
}
