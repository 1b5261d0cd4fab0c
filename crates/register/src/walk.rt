// The walk over the items of two objects.
ghost use Rattle.std.specs.Prelude.{◌≡◌, ◌+◌, ◌≤◌, true, false, not, List, ◌++◌, length, take};
ghost use Rattle.book.specs.Limits.{place_limit};
ghost use Rattle.book.specs.Pages.{complete};
ghost use Rattle.walks.specs.Parts.{facets?, below};
ghost use Rattle.walks.specs.Answers.{WalkedInto};
ghost use Rattle.register.specs.Tables.{items_of};
ghost use Rattle.register.specs.Comparing.{WalkStored};

use super::place::Place;
use super::stack::Stack;
use axes::Axes;
use book::{Item, Refusal};
use hull::Hull;
use overlap::parted;

// So many pairs wait at most: three for each level, and one.
const WAITING: usize = 97;

// The pairs that two items lead to wait, the first to be walked on top. Two facets lead to none.
fn push_parts(
    stack: &mut Stack<'_, (u32, u32)>,
    i: u32,
    j: u32,
    moved: Item,
    standing: Item,
) -> bool
    requires { facets? moved standing ≡ false → stack.old.len + 4 ≤ length stack.old.places.now }
    ensures parts { result ≡ not (facets? moved standing) }
    ensures held { take stack.new.len stack.new.places.now ≡ take stack.old.len stack.old.places.now ++ below i j moved standing }
    ensures room { length stack.new.places.now ≡ length stack.old.places.now }
{
    match (moved, standing) {
        (Item::Facet(_), Item::Facet(_)) => return false,
        (Item::Facet(_), Item::Tie(x, y)) => {
            stack.push((i, y));
            stack.push((i, x));
        }
        (Item::Tie(x, y), Item::Facet(_)) => {
            stack.push((y, j));
            stack.push((x, j));
        }
        (Item::Tie(a, b), Item::Tie(x, y)) => {
            stack.push((b, y));
            stack.push((b, x));
            stack.push((a, y));
            stack.push((a, x));
        }
    }
    true
}

// Walks the two objects, and lists the pairs of facets that no axis parts. The answer is how many pairs were listed, and how many tests
// were made.
pub(crate) fn walk<H: Hull>(
    axes: &Axes,
    moved: &[Place<H>],
    standing: &[Place<H>],
    pairs: &mut [(u32, u32)],
) -> Result<(usize, u64), Refusal>
    requires moved { (complete (items_of moved.now) ≡ true) × (length moved.now ≤ place_limit) }
    requires standing { (complete (items_of standing.now) ≡ true) × (length standing.now ≤ place_limit) }
    ensures { WalkedInto (WalkStored H.reaches moved.now standing.now axes.now.placement) pairs.old pairs.new result }
{
    let mut places = [(0u32, 0u32); WAITING];
    let mut stack = Stack::over(&mut places);
    stack.push(((moved.len() - 1) as u32, (standing.len() - 1) as u32));
    let mut count = 0;
    let mut tests = 0;
    while let Some((i, j)) = stack.pop() {
        tests += 1;
        let left = &moved[i as usize];
        let right = &standing[j as usize];
        if parted(axes, &left.hull, &right.hull) {
            continue;
        }
        if push_parts(&mut stack, i, j, left.item, right.item) {
            continue;
        }
        // By its number: through get_mut, or an iter_mut that is kept from pair to pair, the proof does not learn what the list then holds.
        if count >= pairs.len() {
            return Err(Refusal::ListFull);
        }
        pairs[count] = (i, j);
        count += 1;
    }
    Ok((count, tests))
}
