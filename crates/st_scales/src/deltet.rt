//! The constants of the scales.

ghost use Rattle.std.specs.Prelude.{pos, neg_ℤ, ◌*◌, ◌^◌, ◌≤ℤ◌};

use crate::constants::{anomaly, constant};
use crate::fault::{DeltetFault, DeltetVar};
use st_decimal::Dec;
use st_sine::Orbit;

/// The greatest magnitude of `DELTA_T_A`, 100 s.
const MOST_DELTA: i128 = 100_000_000_000_000_000_000;

/// The greatest `K`, 0.002 s.
const MOST_K: i128 = 2_000_000_000_000_000;

/// The greatest `EB`, 0.02.
const MOST_EB: i128 = 20_000_000_000_000_000;

/// The constants of a leapseconds kernel that lead from TAI to TT and TDB, in units of 10^-18.
///
/// `DELTA_T_A` is TT less TAI, at most 100 s in magnitude. `K`, the amplitude of TDB less TT, lies
/// from 0 to 0.002 s. The others describe the orbit of the Earth.
#[derive(Clone, Copy, Debug, PartialEq, Eq)]
pub struct Deltet {
    delta_ta: i128,
    k: i128,
    orbit: Orbit,
    pub ghost delta_low: { neg_ℤ (pos (100 * 10 ^ 18)) ≤ℤ delta_ta },
    pub ghost delta_high: { delta_ta ≤ℤ pos (100 * 10 ^ 18) },
    pub ghost k_low: { pos 0 ≤ℤ k },
    pub ghost k_high: { k ≤ℤ pos (2 * 10 ^ 15) },
}

impl Deltet {
    ghost use Rattle.std.specs.Prelude.{◌≡◌, Result};
    ghost use Rattle.st_scales.specs.Constants.{GiveConstants};
    ghost use Rattle.st_scales.specs.declared.deltet.Deltet.{Deltet as TheDeltet};
    ghost use Rattle.st_scales.specs.declared.fault.DeltetFault.{DeltetFault as TheFault};

    /// The constants that the numbers of `DELTET/DELTA_T_A`, `DELTET/K`, `DELTET/EB` and `DELTET/M`
    /// spell, each exactly.
    ///
    /// # Errors
    ///
    /// The first fault of the numbers, in the order that `DeltetFault` tells. What is 10^20 or
    /// more is out of range, and no fault of units.
    pub fn from_numbers(
        delta_ta: &[Dec],
        k: &[Dec],
        eb: &[Dec],
        m: &[Dec],
    ) -> Result<Deltet, DeltetFault>
        ensures relation { GiveConstants delta_ta.now k.now eb.now m.now result }
        ensures only { (answer : Result TheDeltet TheFault) → GiveConstants delta_ta.now k.now eb.now m.now answer → result ≡ answer }
    {
        let delta_ta = constant(delta_ta, DeltetVar::DeltaTa, -MOST_DELTA, MOST_DELTA)?;
        let k = constant(k, DeltetVar::K, 0, MOST_K)?;
        let eb = constant(eb, DeltetVar::Eb, 0, MOST_EB)?;
        let (m0, m1) = anomaly(m)?;
        Ok(Deltet {
            delta_ta,
            k,
            orbit: Orbit { eb, m0, m1 },
        })
    }

    /// `DELTA_T_A`, TT less TAI, in units of 10^-18 s.
    pub fn delta_ta(&self) -> i128
        ensures { result ≡ self.now.delta_ta }
    {
        self.delta_ta
    }

    /// `K`, the amplitude of TDB less TT, in units of 10^-18 s.
    pub fn k(&self) -> i128
        ensures { result ≡ self.now.k }
    {
        self.k
    }

    /// `EB`, `M0` and `M1`.
    pub fn orbit(&self) -> Orbit
        ensures { result ≡ self.now.orbit }
    {
        self.orbit
    }
}

#[cfg(test)]
mod tests {
    use super::*;

    fn dec(digits: i128, tens: i32) -> Dec {
        Dec { digits, tens }
    }

    const DELTA_TA: (i128, i32) = (32_184, -3);

    const K: (i128, i32) = (1657, -6);

    const EB: (i128, i32) = (1671, -5);

    const M0: (i128, i32) = (6_239_996, -6);

    const M1: (i128, i32) = (199_096_871, -15);

    fn read(numbers: [(i128, i32); 5]) -> Result<Deltet, DeltetFault> {
        let [a, k, e, m, n] = numbers;
        Deltet::from_numbers(
            &[dec(a.0, a.1)],
            &[dec(k.0, k.1)],
            &[dec(e.0, e.1)],
            &[dec(m.0, m.1), dec(n.0, n.1)],
        )
    }

    #[test]
    fn reads_constants(rt: HostRuntime) {
        let found = read([DELTA_TA, K, EB, M0, M1]);
        let wanted = Deltet {
            delta_ta: 32_184_000_000_000_000_000,
            k: 1_657_000_000_000_000,
            orbit: Orbit {
                eb: 16_710_000_000_000_000,
                m0: 6_239_996_000_000_000_000,
                m1: 199_096_871_000,
            },
        };
        assert_eq!(rt; found, Ok(wanted));
        assert_eq!(rt; wanted.delta_ta(), 32_184_000_000_000_000_000);
        assert_eq!(rt; wanted.k(), 1_657_000_000_000_000);
        assert_eq!(rt; wanted.orbit().m1, 199_096_871_000);
    }

    #[test]
    fn tells_the_first_fault(rt: HostRuntime) {
        let rows = [
            (
                [(1, 30), (1, -19), EB, M0, M1],
                DeltetFault::Range(DeltetVar::DeltaTa),
            ),
            (
                [(-1, 30), K, EB, M0, M1],
                DeltetFault::Range(DeltetVar::DeltaTa),
            ),
            (
                [(1, -19), (1, 30), EB, M0, M1],
                DeltetFault::NotUnits(DeltetVar::DeltaTa),
            ),
            (
                [DELTA_TA, (-1, -18), EB, M0, M1],
                DeltetFault::Range(DeltetVar::K),
            ),
            (
                [DELTA_TA, (2_000_000_000_000_001, -18), (1, -20), M0, M1],
                DeltetFault::Range(DeltetVar::K),
            ),
            (
                [DELTA_TA, K, (1, -20), M0, M1],
                DeltetFault::NotUnits(DeltetVar::Eb),
            ),
            (
                [DELTA_TA, K, (21, -3), M0, M1],
                DeltetFault::Range(DeltetVar::Eb),
            ),
            (
                [DELTA_TA, K, EB, (11, 0), (1, -19)],
                DeltetFault::NotUnits(DeltetVar::M1),
            ),
            (
                [DELTA_TA, K, EB, (11, 0), (1, 0)],
                DeltetFault::Range(DeltetVar::M0),
            ),
            (
                [DELTA_TA, K, EB, M0, (401, -9)],
                DeltetFault::Range(DeltetVar::M1),
            ),
        ];
        for (numbers, fault) in rows {
            assert_eq!(rt; read(numbers), Err(fault));
        }
        let one = [dec(1, -18)];
        let two = [dec(1, -18), dec(2, -18)];
        let count = |variable| Err(DeltetFault::Count(variable));
        assert_eq!(rt;
            Deltet::from_numbers(&[], &[], &one, &two),
            count(DeltetVar::DeltaTa)
        );
        assert_eq!(rt;
            Deltet::from_numbers(&one, &two, &one, &two),
            count(DeltetVar::K)
        );
        assert_eq!(rt;
            Deltet::from_numbers(&one, &one, &[], &two),
            count(DeltetVar::Eb)
        );
        assert_eq!(rt;
            Deltet::from_numbers(&one, &one, &one, &one),
            count(DeltetVar::M)
        );
    }
}
