// A place of the table.
use book::Item;

// An item, its height, whether a tie has it, and its hull.
#[derive(Clone, Copy)]
pub struct Place<H> {
    pub item: Item,
    pub height: u8,
    pub tied: bool,
    pub hull: H,
}
