// Opening a register, starting a draft, and spending it.
ghost use Rattle.std.specs.Prelude.{◌≡◌, ℕ, ◌+◌, ◌<◌, ◌≤◌, List, [], length, nat_lt, slice_index_or};
ghost use Rattle.book.specs.declared.call.Call.{Call};
ghost use Rattle.book.specs.Trees.{Whole};
ghost use Rattle.book.specs.Books.{opened, here, room, Said};
ghost use Rattle.register.specs.Registers.{book_of, Grown, started, filed, removed, Marked, BackFromClose, BackFromDrop, cleared};

use super::draft::{Draft, Unclosed};
use super::place::Place;
use super::register::Register;
use book::{Ledger, Refusal, Span};
use hull::Hull;

// So many places of a table are used at most.
const PLACES: usize = 65536;

// So many objects may be closed.
const OBJECTS: usize = 64;

impl<'t, H: Hull> Register<'t, H> {
    // A register with this mark over the table, with no draft and no object.
    pub fn open(mark: u16, table: &'t mut [Place<H>]) -> Register<'t, H>
        ensures book { book_of result ≡ opened mark (length table.old) }
        ensures table { result.table.now ≡ table.old }
    {
        let end = table.len().min(PLACES);
        Register {
            ledger: Ledger {
                mark,
                first: 0,
                end,
                closed: 0,
                spans: [Span { from: 0, to: 0 }; 64],
                drafting: false,
                base: 0,
                used: 0,
                loose: 0,
            },
            table,
        }
    }

    // Whether a draft is open and this is it.
    pub(crate) fn holds(&self, draft: &Draft) -> bool
        ensures { result ≡ here (book_of self.now) draft.now.mark }
    {
        self.ledger.drafting && draft.mark == self.ledger.mark
    }

    // Whether one more item can be stored.
    pub(crate) fn has_room(&self) -> bool
        ensures room { result ≡ room (book_of self.now) }
        ensures below { result ≡ nat_lt self.now.ledger.used self.now.ledger.end }
    {
        self.ledger.used < self.ledger.end
    }

    // Throws the page away. The places keep what they hold.
    pub(crate) fn clear(&mut self)
        ensures ledger { self.new.ledger ≡ cleared self.old.ledger }
        ensures table { self.new.table.now ≡ self.old.table.now }
        ensures lent { self.new.table.ghost_name ≡ self.old.table.ghost_name }
    {
        self.ledger.drafting = false;
        self.ledger.used = self.ledger.base;
        self.ledger.loose = 0;
    }

    // How many objects are closed. Each is whole: all its items lie under the last one, none is a part of two ties, none is too high.
    // As of every register, each stored hull is the one grown from its item's corner list.
    pub fn objects(&self) -> u32
        ensures count { result ≡ length (book_of self.now).objects }
        ensures grown { Grown H.begun H.grown self.now }
        ensures whole { (k : ℕ) → k < result → Whole (slice_index_or (book_of self.now).objects k []) }
    {
        self.ledger.closed as u32
    }

    // Opens a draft.
    //
    // The clauses table and lent of each call speak of the table before and after it, so no type can hold them.
    pub fn start(&mut self) -> Result<Draft, Refusal>
        ensures said { Said (book_of self.old) Call.Start (started result) (book_of self.new) }
        ensures marked { Marked (book_of self.old).mark result }
        ensures table { self.new.table.now ≡ self.old.table.now }
        ensures lent { self.new.table.ghost_name ≡ self.old.table.ghost_name }
    {
        if self.ledger.drafting {
            return Err(Refusal::DraftOpen);
        }
        if self.ledger.closed >= OBJECTS {
            return Err(Refusal::ObjectsFull);
        }
        self.ledger.drafting = true;
        Ok(Draft {
            mark: self.ledger.mark,
        })
    }
}

impl Draft {
    // Files the draft as an object, whose number is the answer. A draft that is not one object is lost.
    pub fn close<H: Hull>(self, register: &mut Register<'_, H>) -> Result<u32, Unclosed>
        ensures said { Said (book_of register.old) (Call.Close self.mark) (filed result) (book_of register.new) }
        ensures back { BackFromClose self result }
        ensures whole { (k : ℕ) → k < length (book_of register.new).objects → Whole (slice_index_or (book_of register.new).objects k []) }
        ensures table { register.new.table.now ≡ register.old.table.now }
        ensures lent { register.new.table.ghost_name ≡ register.old.table.ghost_name }
    {
        if !register.holds(&self) {
            return Err(Unclosed::NotThisDraft(self));
        }
        let Draft { mark: _ } = self;
        if register.ledger.loose != 1 {
            register.clear();
            return Err(Unclosed::PartsLeftOver);
        }
        let number = register.ledger.closed;
        register.ledger.spans[number] = Span {
            from: register.ledger.base,
            to: register.ledger.used,
        };
        register.ledger.closed = number + 1;
        register.ledger.drafting = false;
        register.ledger.base = register.ledger.used;
        register.ledger.loose = 0;
        Ok(number as u32)
    }

    // Removes the draft's items, and answers how many they were. Their places keep what they hold.
    pub fn drop<H: Hull>(self, register: &mut Register<'_, H>) -> Result<u32, (Draft, Refusal)>
        ensures said { Said (book_of register.old) (Call.Drop self.mark) (removed result) (book_of register.new) }
        ensures back { BackFromDrop self result }
        ensures table { register.new.table.now ≡ register.old.table.now }
        ensures lent { register.new.table.ghost_name ≡ register.old.table.ghost_name }
    {
        if !register.holds(&self) {
            return Err((self, Refusal::NotThisDraft));
        }
        let Draft { mark: _ } = self;
        let count = register.ledger.used - register.ledger.base;
        register.clear();
        Ok(count as u32)
    }
}
