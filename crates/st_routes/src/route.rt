//! The way from the scale of a source to that of a target.

ghost use Rattle.std.specs.Prelude.{◌≡◌, IsTrue, ◌*◌, ◌^◌, pos, ◌+ℤ◌, ◌-ℤ◌, ◌≤ℤ◌};
ghost use Rattle.st_enclosure.specs.Ends.{EndsAtMost};
ghost use Rattle.st_fraction.specs.Fraction.{Fraction, IsFraction, units, LiesWithin};
ghost use Rattle.st_picture.specs.Cell.{IsPrintable};
ghost use Rattle.st_routes.specs.Route.{HasNoSineOnIt, HasSineOnIt, IsAtLeast, IsAtMost, shift};

use st_enclosure::Enc;
use st_scales::{Deltet, Scale, convert};

/// The way of a time from its source to its target. A source in UTC is led on as TAI, and one of a clock in that clock's
/// scale; so are targets.
#[derive(Clone, Copy, Debug, PartialEq, Eq)]
pub enum Route {
    /// Source and target are one scale: no constants are asked for.
    Same,
    /// From a scale to another, by the constants of a leapseconds kernel.
    Scales {
        constants: Deltet,
        from: Scale,
        to: Scale,
    },
}

impl Route {
    /// Whether a sine stands on the way: it leads to or from TDB, and `K` isn't 0.
    pub fn has_sine(&self) -> bool
        ensures yes { IsTrue result → HasSineOnIt self.now }
        ensures no { (IsTrue result → ⊥) → HasNoSineOnIt self.now }
    {
        match self {
            Route::Same => false,
            Route::Scales {
                constants,
                from,
                to,
            } => (*from == Scale::Tdb) != (*to == Scale::Tdb) && constants.k() != 0,
        }
    }

    /// Encloses the values in the target's scale of all that lies in an enclosure of a unit at most.
    pub(crate) fn enclose(&self, time: Enc) -> Enc
        requires ends { EndsAtMost time.lo time.hi (6_311_391_401 * 10 ^ 18) }
        requires narrow { (time.hi -ℤ time.lo) ≤ℤ pos 1 }
        ensures at_least { (x : Fraction) → IsFraction x → LiesWithin time.lo time.hi x → IsAtLeast self.now x (units result.lo) }
        ensures at_most { (x : Fraction) → IsFraction x → LiesWithin time.lo time.hi x → IsAtMost self.now x (units result.hi) }
        ensures exact { HasNoSineOnIt self.now → (result.lo ≡ time.lo +ℤ shift self.now) × (result.hi ≡ time.hi +ℤ shift self.now) }
        ensures narrow { (result.hi -ℤ result.lo) ≤ℤ pos 1001 }
        ensures lo { IsPrintable result.lo }
        ensures hi { IsPrintable result.hi }
    {
        match self {
            Route::Same => time,
            Route::Scales {
                constants,
                from,
                to,
            } => convert(constants, time, *from, *to),
        }
    }
}
