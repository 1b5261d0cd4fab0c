// What every kind of hull keeps to.
ghost use Rattle.std.specs.Prelude.{◌≡◌, ℕ, List, [], ◌∷◌, ◌++◌, ℤ};
ghost use Rattle.hull.specs.declared.corner.Corner.{Corner};
ghost use Rattle.hull.specs.declared.direction.Direction.{Direction};
ghost use Rattle.hull.specs.Measures.{Covers, Rounds, Spread, Tight};

use super::corner::Corner;
use super::direction::Direction;

// A kind of bounding volume, by its support function: how far a hull of the kind reaches along a direction.
pub trait Hull: Copy {
    // its word in a job
    const WORD: &'static str;

    // its number of faces
    const FACES: usize;

    // the hull of one corner, and a hull with one more corner
    ghost begun: { Corner → Self };

    ghost grown: { Self → Corner → Self };

    // how far a hull reaches along a direction, in units of so many
    ghost reaches: { Self → Direction → ℤ };

    // which corner lists a hull fits
    ghost fits: { Self → List Corner → Type 0 };

    // whether the kind has unrounded reaches, and the unrounded reach of the hull of a corner list
    ghost faced: { Type 0 };

    ghost unrounded: { List Corner → Direction → ℤ };

    // The hull of one corner.
    fn first(p: Corner) -> Self
        ensures { result ≡ begun p };

    // The hull with one more corner.
    fn more(self, p: Corner) -> Self
        ensures { result ≡ grown self p };

    // How far the hull reaches along the direction.
    fn reach(&self, u: &Direction) -> i64
        ensures { result ≡ reaches self.now u.now };

    ghost one: { (p : Corner) → fits (begun p) (p ∷ []) };

    ghost another: { (h : Self) (c : List Corner) (p : Corner) → fits h c → fits (grown h p) (c ++ (p ∷ [])) };

    ghost covers: { (h : Self) (c : List Corner) (u : Direction) → fits h c → Covers (reaches h u) u c };

    ghost tight: { (h : Self) (c : List Corner) (u : Direction) (s : ℕ) → fits h c → Spread s c → Tight (reaches h u) u s c };

    ghost rounds: { (h : Self) (c : List Corner) (u : Direction) → faced → fits h c → Rounds (reaches h u) (unrounded c u) u };
}
