ghost use Rattle.std.specs.Prelude.{pos, neg_ℤ, ◌*◌, ◌^◌, ◌-ℤ◌, ◌≤ℤ◌};

/// The constants of the Earth's orbit in the formula for TDB, in units of 10^-18: the eccentricity `eb`, from 0 to 0.02;
/// the mean anomaly at J2000 `m0`, at most 10 rad in magnitude; and its rate `m1`, from 0 to 4·10^-7 rad/s.
#[derive(Clone, Copy, Debug, PartialEq, Eq)]
pub struct Orbit {
    pub eb: i128,
    pub m0: i128,
    pub m1: i128,
    ghost eb_low: { pos 0 ≤ℤ eb },
    ghost eb_high: { eb ≤ℤ pos (2 * 10 ^ 16) },
    ghost m0_low: { neg_ℤ (pos (10 ^ 19)) ≤ℤ m0 },
    ghost m0_high: { m0 ≤ℤ pos (10 ^ 19) },
    ghost m1_low: { pos 0 ≤ℤ m1 },
    ghost m1_high: { m1 ≤ℤ pos (4 * 10 ^ 11) },
}
