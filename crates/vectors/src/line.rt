// One test vector.
use super::fault::Fault;
use super::pieces::{Pair, direction, hull_of, pair_of};
use super::sort::Sort;
use ball::BallHull;
use faced::{BoxHull, ManyHull};
use hull::Hull;
use jobtext::Kind;
use overlap::{gaps, parted};
use std::alloc::Global;

// The numbers of a text, parted by single spaces.
fn read_numbers(heap: Global, text: &str) -> Result<Vec<i128>, Fault> {
    text.split(' ')
        .map(|word| word.parse().map_err(|_| Fault::Malformed))
        .try_collect(heap)
}

// Whether the reach is the expected one.
fn reach_agrees<H: Hull>(n: &[i128]) -> Option<bool> {
    let [count, corners @ .., x, y, z, expected] = n else {
        return None;
    };
    if corners.len() / 3 != usize::try_from(*count).ok()? {
        return None;
    }
    let hull: H = hull_of(corners)?;
    let u = direction(&[*x, *y, *z])?;
    Some(hull.reach(&u) as i128 == *expected)
}

// Whether both gaps are the expected ones.
fn gap_agrees<H: Hull>(n: &[i128]) -> Option<bool> {
    let [pair @ .., axis, first, second] = n else {
        return None;
    };
    let pair: Pair<H> = pair_of(pair)?;
    let place = usize::try_from(*axis).ok()?.checked_sub(1)?;
    let found = gaps(&pair.axes, place, &pair.moved, &pair.standing)?;
    Some(found == (*first, *second))
}

// Whether the parting is the expected one.
fn parting_agrees<H: Hull>(n: &[i128]) -> Option<bool> {
    let [pair @ .., expected] = n else {
        return None;
    };
    let pair: Pair<H> = pair_of(pair)?;
    let is_parted = parted(&pair.axes, &pair.moved, &pair.standing);
    match *expected {
        0 => Some(!is_parted),
        1 => Some(is_parted),
        _ => None,
    }
}

// Whether the vector of a kind agrees. The numbers are read otherwise for each sort, so each has a function of its own.
fn agrees<H: Hull>(sort: Sort, n: &[i128]) -> Option<bool> {
    match sort {
        Sort::Reach => reach_agrees::<H>(n),
        Sort::Gap => gap_agrees::<H>(n),
        Sort::Parting => parting_agrees::<H>(n),
    }
}

// The sort of a line's vector, where that agrees.
pub(crate) fn judge(heap: Global, line: &str) -> Result<Sort, Fault> {
    let (sort, rest) = line.split_once(' ').ok_or(Fault::Malformed)?;
    let (kind, text) = rest.split_once(' ').ok_or(Fault::Malformed)?;
    let sort = sort.parse()?;
    let kind = Kind::from_word(kind.as_bytes()).ok_or(Fault::Malformed)?;
    let numbers = read_numbers(heap, text)?;
    let n = numbers.as_slice();
    // Each kind has a type of hulls of its own, and a table of functions would be no plainer than these arms.
    let found = match kind {
        Kind::Box => agrees::<BoxHull>(sort, n),
        Kind::Many => agrees::<ManyHull>(sort, n),
        Kind::Ball => agrees::<BallHull>(sort, n),
    };
    match found {
        Some(true) => Ok(sort),
        Some(false) => Err(Fault::Differs),
        None => Err(Fault::Malformed),
    }
}
