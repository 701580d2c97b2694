//! The answer to a time, by a picture or by a clock.

ghost use Rattle.std.specs.Prelude.{◌≡◌, ◌<◌, ◌*◌, ◌^◌, pos, ◌-ℤ◌, ◌≤ℤ◌, IfErr, IfOk, IsSome, option_map};
ghost use Rattle.st_enclosure.specs.Ends.{EndsAtMost};
ghost use Rattle.st_dates.specs.declared.system.System.TheVariants.{Utc};
ghost use Rattle.st_fraction.specs.Fraction.{LiesWithin, units};
ghost use Rattle.st_clock.specs.Time.{value_of};
ghost use Rattle.st_routes.specs.Outcome.{MayBeUndecided, MayPrint, RouteGives, at_tick, by_clock, by_picture};
ghost use Rattle.st_routes.specs.TickSteps.{IsWithin};
ghost use Rattle.st_routes.specs.declared.fault.TimeFault.TheVariants.{Undecided as Unknown};
ghost use Rattle.st_routes.specs.Route.{HasNoSineOnIt, HasSineOnIt, IsSource};

use crate::fault::TimeFault;
use crate::route::Route;
use crate::ticks::{TickForm, spell_tick};
use st_clock::laws::one_tick;
use st_clock::{Clock, Point, Ticks};
use st_decimal::Line;
use st_enclosure::Enc;
use st_leaps::LeapTable;
use st_picture::laws::cell_of_floor;
use st_picture::{Picture, PrintFault};
use st_scales::laws::one_value;
use std::alloc::Global;

/// The text of a time by a picture, led to the scale of its target. For UTC that is TAI, and `leaps` tells its days.
///
/// The time is a count of units of 10^-18 s past J2000 and a part of a unit. Its units are at most 6,311,391,400 s in magnitude.
///
/// # Errors
///
/// `Undecided`, only where a sine stands on the way and two bounds of the exact value, at most 10^-12 s apart, lie in different
/// cells; or want of memory.
pub fn print_time(
    alloc: Global,
    route: &Route,
    time: Point,
    picture: &Picture,
    leaps: Option<&LeapTable>,
) -> Result<Line, TimeFault>
    requires part { time.part < time.of }
    requires range { IsSource time.units }
    requires leaps { picture.now.system ≡ Utc → IsSome leaps }
    ensures gives { RouteGives route.now (value_of time) (by_picture picture.now (option_map (λ t. t.now) leaps.entry)) result }
{
    if route.has_sine() {
        print_known(alloc, route, time, picture, leaps)
    } else {
        print_exact(alloc, route, time, picture, leaps)
    }
}

/// The same where no sine stands on the way: a time between two units has the cell of the lower one.
fn print_exact(
    alloc: Global,
    route: &Route,
    time: Point,
    picture: &Picture,
    leaps: Option<&LeapTable>,
) -> Result<Line, TimeFault>
    requires exact { HasNoSineOnIt route.now }
    requires part { time.part < time.of }
    requires range { IsSource time.units }
    requires leaps { picture.now.system ≡ Utc → IsSome leaps }
    ensures { RouteGives route.now (value_of time) (by_picture picture.now (option_map (λ t. t.now) leaps.entry)) result }
{
    // By these laws the value is the shifted time, and has the cell of its lower unit.
    one_value();
    cell_of_floor();
    let value = route.enclose(Enc::point(time.units));
    let cell = picture.cell_of(value.lo, leaps);
    Ok(picture.print_cell(alloc, cell)?)
}

/// The same where a sine stands on the way: the value is known to lie in an enclosure.
fn print_known(
    alloc: Global,
    route: &Route,
    time: Point,
    picture: &Picture,
    leaps: Option<&LeapTable>,
) -> Result<Line, TimeFault>
    requires sine { HasSineOnIt route.now }
    requires part { time.part < time.of }
    requires range { IsSource time.units }
    requires leaps { picture.now.system ≡ Utc → IsSome leaps }
    ensures { RouteGives route.now (value_of time) (by_picture picture.now (option_map (λ t. t.now) leaps.entry)) result }
{
    let value = route.enclose(enclosed(time));
    match picture.print_in(alloc, value, leaps) {
        Ok(line) => Ok(line),
        Err(PrintFault::Undecided { .. }) => Err(TimeFault::Undecided),
        Err(PrintFault::OutOfMemory) => Err(TimeFault::OutOfMemory),
    }
}

/// The unit in which a time lies, or the one that it is.
fn enclosed(time: Point) -> Enc
    requires part { time.part < time.of }
    requires range { IsSource time.units }
    ensures contains { LiesWithin result.lo result.hi (value_of time) }
    ensures ends { EndsAtMost result.lo result.hi (6_311_391_401 * 10 ^ 18) }
    ensures narrow { (result.hi -ℤ result.lo) ≤ℤ pos 1 }
{
    let past = if time.part > 0 { 1 } else { 0 };
    Enc {
        lo: time.units,
        hi: time.units + past,
    }
}

/// The text of the tick of a time, led to the scale of its clock. The time is in units of 10^-18 s past J2000, at most
/// 6,311,391,400 s in magnitude.
///
/// # Errors
///
/// `BeforeClock` where the time is before the clock's first record, `AfterClock` where its nearest tick is after the last
/// partition; `Undecided`, only where a sine stands on the way and two bounds of the exact value, at most 10^-12 s apart, have
/// different ticks; or want of memory.
pub fn print_tick(
    alloc: Global,
    route: &Route,
    time: i128,
    clock: &Clock,
    form: TickForm,
) -> Result<Line, TimeFault>
    requires range { IsSource time }
    ensures gives { RouteGives route.now (units time) (by_clock clock.now form) result }
{
    match find_ticks(route, time, clock, form)? {
        Ticks::Before => Err(TimeFault::BeforeClock),
        Ticks::At(tick) => Ok(spell_tick(alloc, clock, tick, form)?),
        Ticks::After => Err(TimeFault::AfterClock),
    }
}

/// The tick of a time, with the times that have none. Two bounds of an exact value are one, and so have one tick.
fn find_ticks(route: &Route, time: i128, clock: &Clock, form: TickForm) -> Result<Ticks, TimeFault>
    requires range { IsSource time }
    ensures found { IfOk result (λ ticks. MayPrint route.now (units time) (by_clock clock.now form) (at_tick ticks)) }
    ensures within { IfOk result (IsWithin clock.now) }
    ensures undecided { IfErr result (λ fault. (fault ≡ Unknown) × MayBeUndecided route.now (units time) (by_clock clock.now form)) }
{
    // What is true of each clock comes with its scale.
    let _scale = clock.scale();
    one_tick();
    let value = route.enclose(Enc::point(time));
    match clock.ticks_in(value) {
        Ok(ticks) => Ok(ticks),
        Err(_) => Err(TimeFault::Undecided),
    }
}
