// Hulls and placements from the numbers of a vector.
use axes::Axes;
use hull::{Corner, Direction, Hull};
use placement::Placement;

// These numbers as so many entries.
fn entries<const N: usize>(n: &[i128]) -> Option<[i64; N]> {
    if n.len() != N {
        return None;
    }
    let mut entries = [0; N];
    for (entry, x) in entries.iter_mut().zip(n) {
        *entry = i64::try_from(*x).ok()?;
    }
    Some(entries)
}

// The corner with these three entries.
fn corner(n: &[i128]) -> Option<Corner> {
    let [x, y, z] = entries::<3>(n)?;
    Corner::new(x, y, z)
}

// The direction with these three entries.
pub(crate) fn direction(n: &[i128]) -> Option<Direction> {
    let [x, y, z] = entries::<3>(n)?;
    Direction::new(x, y, z)
}

// The hull of one corner or more.
pub(crate) fn hull_of<H: Hull>(corners: &[i128]) -> Option<H> {
    let mut corners = corners.chunks(3).map(corner);
    let first = H::first(corners.next()??);
    corners.try_fold(first, |hull, p| Some(hull.more(p?)))
}

// The axes of the placement with these twelve numbers.
fn axes_of(n: &[i128]) -> Option<Axes> {
    Some(Axes::new(Placement::new(entries(n)?)?))
}

// A moved and a standing hull, and the axes of a placement.
#[derive(Clone, Copy)]
pub struct Pair<H> {
    pub moved: H,
    pub standing: H,
    pub axes: Axes,
}

// The pair with these thirty numbers: two facets and a placement.
pub(crate) fn pair_of<H: Hull>(n: &[i128]) -> Option<Pair<H>> {
    if n.len() != 30 {
        return None;
    }
    Some(Pair {
        moved: hull_of(&n[0..9])?,
        standing: hull_of(&n[9..18])?,
        axes: axes_of(&n[18..30])?,
    })
}
