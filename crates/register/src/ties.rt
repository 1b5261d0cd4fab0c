// Entering a tie.
ghost use Rattle.std.specs.Prelude.{◌≡◌, ℕ, ◌+◌, ◌-◌, ◌<◌, ◌≤◌, true, false, length, pos, fold, MatchOption, unsigned_abs};
ghost use Rattle.book.specs.declared.call.Call.{Call};
ghost use Rattle.book.specs.Facets.{corners_of};
ghost use Rattle.book.specs.Trees.{tree, corners, flags};
ghost use Rattle.book.specs.Books.{joins, height_of_tie, Said};
ghost use Rattle.book.specs.Pages.{sane, heights};
ghost use Rattle.book.specs.Ledgers.{drafted};
ghost use Rattle.register.specs.Tables.{items_of, heights_of, tieds_of, Joined, FreeParts, TieStands};
ghost use Rattle.register.specs.Registers.{book_of, entered, Filled, FilledBy, tie_of, with_tie, Joining};

use super::draft::Draft;
use super::place::Place;
use super::register::Register;
use super::stack::Stack;
use book::{Facet, Item, Refusal};
use hull::Hull;

// An item is at most so high.
const HEIGHT: u8 = 32;

// So many items wait at most: one for each level, and one.
const WAITING: usize = 33;

// The number as one of so many, counted from 0.
pub(crate) fn number_below(n: i64, count: usize) -> Option<usize>
    ensures { MatchOption result ((k : ℕ) → n ≡ pos k → count ≤ k) (λ k. (n ≡ pos k) × (k < count)) }
{
    usize::try_from(n).ok().filter(|k| *k < count)
}

// The two numbers as those of different items that no tie has.
fn free_parts<H: Hull>(page: &[Place<H>], x: i64, y: i64) -> Option<(usize, usize)>
    requires { tieds_of page.now ≡ flags (items_of page.now) }
    ensures { MatchOption result (joins (items_of page.now) x y ≡ false) (λ q. FreeParts (items_of page.now) x y q.0 q.1) }
{
    let i = number_below(x, page.len())?;
    let j = number_below(y, page.len())?;
    let left = &page[i];
    let right = &page[j];
    if i == j || left.tied || right.tied {
        return None;
    }
    Some((i, j))
}

// The height of a tie of two items.
fn tie_height<H: Hull>(page: &[Place<H>], x: usize, y: usize) -> u8
    requires within { (x < length page.now) × (y < length page.now) }
    requires known { (heights_of page.now ≡ heights (items_of page.now)) × (sane (items_of page.now) ≡ true) }
    ensures { result ≡ height_of_tie (items_of page.now) x y }
{
    let left = &page[x];
    let right = &page[y];
    left.height.max(right.height) + 1
}

// The hull, grown over the corners of a facet.
fn over_facet<H: Hull>(hull: H, facet: Facet) -> H
    ensures { result ≡ fold H.grown hull (corners_of facet) }
{
    hull.more(facet.a).more(facet.b).more(facet.c)
}

// The hull, grown over the corners of item y.
fn over_item<H: Hull>(page: &[Place<H>], hull: H, y: u32) -> H
    requires { (sane (items_of page.now) ≡ true) × (y < length page.now) }
    ensures { result ≡ fold H.grown hull (corners (tree (items_of page.now) y)) }
{
    let mut places = [0u32; WAITING];
    let mut stack = Stack::over(&mut places);
    stack.push(y);
    let mut grown = hull;
    while let Some(i) = stack.pop() {
        let place = &page[i as usize];
        match place.item {
            Item::Facet(facet) => {
                grown = over_facet(grown, facet);
            }
            Item::Tie(a, b) => {
                stack.push(b);
                stack.push(a);
            }
        }
    }
    grown
}

impl<'t, H: Hull> Register<'t, H> {
    // The places of the draft.
    fn page(&self) -> &[Place<H>]
        ensures { result.now ≡ drafted self.now.ledger self.now.table.now }
    {
        let table = &*self.table;
        let from = self.ledger.base;
        let to = self.ledger.used;
        &table[from..to]
    }

    // Enters a tie of items x and y of the draft, and flags the two.
    fn join(&mut self, x: usize, y: usize, tie: Place<H>)
        requires { Joining self.old x y tie }
        ensures ledger { self.new.ledger ≡ with_tie self.old.ledger }
        ensures table { Joined self.old.table.now self.new.table.now (self.old.ledger.base + x) (self.old.ledger.base + y) self.old.ledger.used tie }
        ensures lent { self.new.table.ghost_name ≡ self.old.table.ghost_name }
    {
        let at = self.ledger.used;
        let loose = self.ledger.loose - 1;
        let i = self.ledger.base + x;
        let j = self.ledger.base + y;
        let mut left = self.table[i];
        left.tied = true;
        let mut right = self.table[j];
        right.tied = true;
        // Off the page while its items are changed.
        self.ledger.used = self.ledger.base;
        self.ledger.loose = 0;
        self.table[i] = left;
        self.table[j] = right;
        self.table[at] = tie;
        self.ledger.used = at + 1;
        self.ledger.loose = loose;
    }
}

impl Draft {
    // Enters the tie of items x and y, and answers its number.
    pub fn tie<H: Hull>(
        self,
        register: &mut Register<'_, H>,
        x: i64,
        y: i64,
    ) -> (Draft, Result<u32, Refusal>)
        ensures said { Said (book_of register.old) (Call.Tie self.mark x y) (entered result.1) (book_of register.new) }
        ensures back { result.0 ≡ self }
        ensures table { Filled register.old register.new (tie_of x y) result.1 }
        ensures place { FilledBy (TieStands H.grown (unsigned_abs x) (unsigned_abs y)) register.old register.new result.1 }
        ensures lent { register.new.table.ghost_name ≡ register.old.table.ghost_name }
    {
        if !register.holds(&self) {
            return (self, Err(Refusal::NotThisDraft));
        }
        let page = register.page();
        let Some((left, right)) = free_parts(page, x, y) else {
            return (self, Err(Refusal::PartsNotFree));
        };
        let height = tie_height(page, left, right);
        if height > HEIGHT {
            return (self, Err(Refusal::TooHigh));
        }
        if !register.has_room() {
            return (self, Err(Refusal::TableFull));
        }
        let first = &page[left];
        let tie = Place {
            item: Item::Tie(left as u32, right as u32),
            height,
            tied: false,
            hull: over_item(page, first.hull, right as u32),
        };
        let number = page.len();
        register.join(left, right, tie);
        (self, Ok(number as u32))
    }
}
