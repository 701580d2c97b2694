//! A clock, and what is asked of it.

ghost use Rattle.std.specs.Prelude.{◌≡◌, ◌⊎◌, Err, ℕ, ◌^◌, ◌≤◌, ◌≤ℤ◌, pos, unsigned_abs, Result};
ghost use Rattle.st_fraction.specs.Fraction.{units};
ghost use Rattle.st_enclosure.specs.Ends.{EndsAtMost};
ghost use Rattle.st_clock.specs.Clock.{IsClock, Clock as Seen};
ghost use Rattle.st_clock.specs.Parts.{GivesClock};
ghost use Rattle.st_ticks.specs.declared.fault.FaceFault.{FaceFault as Fault};
ghost use Rattle.st_ticks.specs.declared.fault.FaceFault.TheVariants.{OutOfMemory as NoMemory};
ghost use Rattle.st_clock.specs.Tick.{TickOf, GivesTicks};
ghost use Rattle.st_clock.specs.Time.{GivesTime};
ghost use Rattle.st_clock.specs.declared.point.ClockRange.{ClockRange as Range};
ghost use Rattle.st_clock.specs.declared.point.Point.{Point as Parted};
ghost use Rattle.st_clock.specs.declared.ticks.Ticks.{Ticks as Answer};
ghost use Rattle.st_clock.specs.declared.ticks.TicksUndecided.{TicksUndecided as Two};

use crate::coefficient::Coefficient;
use crate::line::{is_in_range, line_time};
use crate::nearest::nearest;
use crate::places::{at_tick, at_time};
use crate::point::{ClockRange, Point};
use crate::records::read_records;
use crate::system::check_system;
use crate::ticks::{Ticks, TicksUndecided};
use st_decimal::Dec;
use st_enclosure::Enc;
use st_scales::Scale;
use st_ticks::{Face, FaceFault};
use std::alloc::Global;
use std::marker::Model;

/// A spacecraft clock of type 1: its face, the scale of its times, and the records that correlate ticks with times.
///
/// Source: NAIF's SCLK Required Reading.
#[derive(Debug, Drop)]
pub struct Clock {
    face: Face,
    scale: Scale,
    records: Vec<Coefficient>,
}

impl Model for Clock {
    ghost use Rattle.st_clock.specs.Clock.{Clock as Seen};
    ghost use Rattle.st_clock.specs.KeptSteps.{seen, IsSound};

    ghost Value = { Seen };

    ghost view = { λ c. seen c.face c.scale c.records.items };

    ghost invariant = { λ c. IsSound (seen c.face c.scale c.records.items) };
}

impl Clock {
    /// The clock of a face, by the values of `SCLK_DATA_TYPE_n`, of `SCLK01_TIME_SYSTEM_n`, which is 1 where it is empty, and of
    /// `SCLK01_COEFFICIENTS_n`. After a refusal the face is dropped.
    ///
    /// # Errors
    ///
    /// [`FaceFault`]: the first fault of the three variables, or that memory was refused.
    pub fn from_parts(
        alloc: Global,
        face: Face,
        data_type: &[Dec],
        time_system: &[Dec],
        coefficients: &[Dec],
    ) -> Result<Clock, FaceFault>
        ensures gives { GivesClock face data_type.now time_system.now coefficients.now result }
        ensures only { (answer : Result Seen Fault) → GivesClock face data_type.now time_system.now coefficients.now answer
            → (result ≡ answer) ⊎ ((result ≡ Err NoMemory) ⊎ (answer ≡ Err NoMemory)) }
    {
        let scale = match check_system(data_type, time_system) {
            Ok(scale) => scale,
            Err(fault) => return Err(FaceFault::Bad(fault)),
        };
        let records = match read_records(alloc, coefficients) {
            Ok(records) => records,
            Err(fault) => return Err(fault),
        };
        // What is true of each face comes with its totals.
        let _total = face.total();
        Ok(Clock {
            face,
            scale,
            records,
        })
    }

    /// The fields and partitions, by which ticks are written.
    pub fn face(&self) -> &Face
        ensures value { result.now ≡ self.now.face }
        ensures clock { IsClock self.now }
    {
        &self.face
    }

    /// The scale of the clock's times, TDB or TT.
    pub fn scale(&self) -> Scale
        ensures value { result ≡ self.now.scale }
        ensures clock { IsClock self.now }
    {
        self.scale
    }

    /// The time of an encoded tick, in the clock's scale.
    ///
    /// # Errors
    ///
    /// [`ClockRange`].
    pub fn time_of(&self, ticks: u64) -> Result<Point, ClockRange>
        ensures gives { GivesTime self.now ticks result }
        ensures only { (answer : Result Parted Range) → GivesTime self.now ticks answer → result ≡ answer }
    {
        let Some(force) = at_tick(self.records.as_slice(), ticks) else {
            return Err(ClockRange::Before);
        };
        let Some(p) = line_time(self.face.ticks_per_count(), force.record, ticks) else {
            return Err(ClockRange::OutOfRange);
        };
        if is_in_range(p.units, p.part, p.of) {
            Ok(p)
        } else {
            Err(ClockRange::OutOfRange)
        }
    }

    /// The encoded tick nearest to a time of the clock's scale, in units of 10^-18 s past J2000, at most 10^10 s in magnitude.
    /// A half counts up, and no line goes beyond the next record's tick.
    pub fn ticks_of(&self, time: i128) -> Ticks
        requires { unsigned_abs time ≤ 10 ^ 28 }
        ensures gives { TickOf self.now (units time) result }
        ensures only { (answer : Answer) → TickOf self.now (units time) answer → result ≡ answer }
    {
        let Some(force) = at_time(self.records.as_slice(), time) else {
            return Ticks::Before;
        };
        let number = nearest(self.face.ticks_per_count(), force.record, force.next, time);
        if number > u128::from(self.face.total()) {
            Ticks::After
        } else {
            Ticks::At(number as u64)
        }
    }

    /// The encoded tick of a time that is known to lie in an enclosure, whose ends are at most 10^10 s in magnitude.
    ///
    /// # Errors
    ///
    /// [`TicksUndecided`] where the ticks of the two ends differ.
    pub fn ticks_in(&self, time: Enc) -> Result<Ticks, TicksUndecided>
        requires { EndsAtMost time.lo time.hi (10 ^ 28) }
        ensures gives { GivesTicks self.now (units time.lo) (units time.hi) result }
        ensures only { (answer : Result Answer Two) → GivesTicks self.now (units time.lo) (units time.hi) answer → result ≡ answer }
    {
        let lo = self.ticks_of(time.lo);
        let hi = self.ticks_of(time.hi);
        if lo.is_same(hi) {
            Ok(lo)
        } else {
            Err(TicksUndecided { lo, hi })
        }
    }
}
