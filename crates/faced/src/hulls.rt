// A hull with faces as a kind of hull.
ghost use Rattle.std.specs.Prelude.{◌≡◌};
ghost use Rattle.support.specs.Exchange.{InAnyOrderAs};
ghost use Rattle.support.proofs.Tops.{supports_one, supports_more};
ghost use Rattle.support.proofs.FacedLaws as laws;
ghost use Rattle.faced.specs.Hulls.{begun_on, grown_on, reach_by, unrounded_by};

use super::reach::reach_along;
use super::supports::raise;
use super::weighted::Weighted;
use hull::{Corner, Direction, Hull};

// A hull by its support values on the first N faces of the list.
#[derive(Clone, Copy)]
pub struct FacedHull<const N: usize> {
    supports: [i16; N],
}

impl<const N: usize> Hull for FacedHull<N>
where
    Self: Weighted<N>,
{
    const WORD: &'static str = <Self as Weighted<N>>::NAME;

    const FACES: usize = N;

    ghost begun = { begun_on N };

    ghost grown = { grown_on N };

    ghost reaches = { reach_by N ⟦<Self as Weighted<N>>⟧.weights };

    ghost fits = { ⟦<Self as Weighted<N>>⟧.fits };

    ghost faced = { Unit {0} };

    ghost unrounded = { unrounded_by ⟦<Self as Weighted<N>>⟧.weights };

    ghost one = { λ p. (⟦<Self as Weighted<N>>⟧.supported (begun_on N p) _).1 (supports_one N p) };

    ghost another = { λ h c p f. (⟦<Self as Weighted<N>>⟧.supported (grown_on N h p) _).1 (supports_more N h.supports c p ((⟦<Self as Weighted<N>>⟧.supported h c).0 f)) };

    ghost covers = { λ h c u f. laws.covers u N (⟦<Self as Weighted<N>>⟧.weights u) (⟦<Self as Weighted<N>>⟧.decomposes u) h.supports c ((⟦<Self as Weighted<N>>⟧.supported h c).0 f) };

    ghost tight = { λ h c u s f d. laws.tight u N (⟦<Self as Weighted<N>>⟧.weights u) (⟦<Self as Weighted<N>>⟧.decomposes u) h.supports c s ((⟦<Self as Weighted<N>>⟧.supported h c).0 f) d };

    ghost rounds = { λ h c u t f. laws.rounds u N (⟦<Self as Weighted<N>>⟧.weights u) (⟦<Self as Weighted<N>>⟧.decomposes u) h.supports c ((⟦<Self as Weighted<N>>⟧.supported h c).0 f) };

    fn first(p: Corner) -> FacedHull<N> {
        let mut supports = [i16::MIN; N];
        raise(&mut supports, &p);
        FacedHull { supports }
    }

    fn more(self, p: Corner) -> FacedHull<N> {
        let mut grown = self.supports;
        raise(&mut grown, &p);
        FacedHull { supports: grown }
    }

    fn reach(&self, u: &Direction) -> i64
        ensures value { result ≡ reach_by N ⟦<Self as Weighted<N>>⟧.weights self.now u.now }
        ensures free { InAnyOrderAs ⟦<Self as Weighted<N>>⟧.arranged self.now.supports u.now.x u.now.y u.now.z result }
    {
        reach_along(&self.supports, Self::weights_of(u))
    }
}
