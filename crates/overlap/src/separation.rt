// Two hulls along the axes of a placement. They come as two references and in no record, since a register's table holds them apart.
ghost use Rattle.std.specs.Prelude.{◌≡◌, ◌^◌, ◌≤◌, T, ◌+ℤ◌, ◌-ℤ◌, neg_ℤ, MatchOption, unsigned_abs};
ghost use Rattle.pairs.specs.Gaps.{gap_over_standing, gap_over_moved, Parts, GapsAt, Parted};
ghost use Rattle.pairs.specs.Claims.{TouchingUnparted, UnpartedNear, PartedUnrounded, UnpartedUnroundedNear};
ghost use Rattle.pairs.specs.Units.{axis_count};

use axes::Axes;
use hull::{Direction, Hull};
use pairs::SeparatingAxis;

// The room between the upper end of one hull and the lower end of another that is lifted, from the directions of these ends.
fn room<H: Hull>(below: &H, up: &Direction, above: &H, down: &Direction, lift: i128) -> i128
    requires { unsigned_abs lift ≤ 2 ^ 64 }
    ensures { result ≡ neg_ℤ (H.reaches above.now down.now) +ℤ lift -ℤ H.reaches below.now up.now }
{
    lift - above.reach(down) as i128 - below.reach(up) as i128
}

// The room between the standing hull's upper end and the moved hull's lower end along the axis.
pub fn first_gap<H: Hull>(axis: &SeparatingAxis, moved: &H, standing: &H) -> i128
    ensures { result ≡ gap_over_standing (H.reaches moved.now) (H.reaches standing.now) axis.now }
{
    let lift = axis.shift as i128;
    room(standing, &axis.standing_up, moved, &axis.moved_down, lift)
}

// The room between the moved hull's upper end and the standing hull's lower end along the axis.
pub fn second_gap<H: Hull>(axis: &SeparatingAxis, moved: &H, standing: &H) -> i128
    ensures { result ≡ gap_over_moved (H.reaches moved.now) (H.reaches standing.now) axis.now }
{
    let lift = -(axis.shift as i128);
    room(moved, &axis.moved_up, standing, &axis.standing_down, lift)
}

// Both gaps along an axis of the placement, counted from 0.
pub fn gaps<H: Hull>(axes: &Axes, axis: usize, moved: &H, standing: &H) -> Option<(i128, i128)>
    ensures { MatchOption result (axis_count ≤ axis) (λ g. GapsAt (H.reaches moved.now) (H.reaches standing.now) axes.now.placement axis g.0 g.1) }
{
    let s = axes.each.get(axis)?;
    Some((
        first_gap(s, moved, standing),
        second_gap(s, moved, standing),
    ))
}

// Whether the axis parts the hulls.
fn parts<H: Hull>(axis: &SeparatingAxis, moved: &H, standing: &H) -> bool
    ensures yes { T result → Parts (H.reaches moved.now) (H.reaches standing.now) axis.now }
    ensures no { Parts (H.reaches moved.now) (H.reaches standing.now) axis.now → T result }
{
    first_gap(axis, moved, standing) > 0 || second_gap(axis, moved, standing) > 0
}

// Whether some axis of the placement parts the moved hull and the standing one.
pub fn parted<H: Hull>(axes: &Axes, moved: &H, standing: &H) -> bool
    ensures found { T result → Parted (H.reaches moved.now) (H.reaches standing.now) axes.now.placement }
    ensures missed { Parted (H.reaches moved.now) (H.reaches standing.now) axes.now.placement → T result }
    ensures touching { TouchingUnparted axes.now.placement (H.fits moved.now) (H.fits standing.now) (T result) }
    ensures near { UnpartedNear axes.now.placement (H.fits moved.now) (H.fits standing.now) (T result) }
    ensures parts_unrounded { PartedUnrounded axes.now.placement (H.fits moved.now) (H.fits standing.now) H.faced (H.reaches moved.now) (H.reaches standing.now) H.unrounded }
    ensures near_unrounded { UnpartedUnroundedNear axes.now.placement (H.fits moved.now) (H.fits standing.now) H.faced H.unrounded (T result) }
{
    // A loop and no `any`, with which the walks of a comparison take a fifth longer.
    for axis in &axes.each {
        if parts(axis, moved, standing) {
            return true;
        }
    }
    false
}
