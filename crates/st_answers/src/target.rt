//! What a value is printed as by the target of a job.

ghost use Rattle.std.specs.Prelude.{◌≡◌, ◌&&◌, ◌<◌, ◌≢◌, IfOk, IfErr, Ok, Err, true, false};
ghost use Rattle.st_answers.specs.Answer as answer;
ghost use Rattle.st_answers.specs.Answer.{IsRouteOf, SpellGives};
ghost use Rattle.st_answers.specs.AskedSteps.{ClockPrintIs, ClockScaleIs, HasAsked, HasClockFor, PrintIs, scale_with, shown};
ghost use Rattle.st_answers.specs.Ready.{IsReady};
ghost use Rattle.st_answers.specs.Sides.{is_clock};
ghost use Rattle.st_routes.specs.Route.{IsSource};
ghost use Rattle.st_routes.specs.declared.fault.TimeFault.TheVariants.{OutOfMemory as NoMemory};

use crate::asked::Lent;
use st_clock::Point;
use st_dates::System;
use st_decimal::Line;
use st_routes::{Route, TickForm, TimeFault, print_tick, print_time, read_tick, spell_tick};
use st_scales::Scale;
use st_words::{FromKind, Job, ToKind};
use std::alloc::Global;

/// The way from the source's scale to the target's, by the constants where they are two.
pub fn route_of(job: &Job, tables: &Lent) -> Route
    requires { HasAsked job.now (shown tables.now) }
    ensures { IsRouteOf job.now (shown tables.now) result }
{
    let Some(constants) = tables.constants else {
        return Route::Same;
    };
    let clock = clock_scale(tables);
    Route::Scales {
        constants: *constants,
        from: scale_of(job.from, clock),
        to: scale_of(job.to, clock),
    }
}

/// The scale of the clock's times, where the job asks for a clock.
fn clock_scale(tables: &Lent) -> Scale
    ensures { ClockScaleIs (shown tables.now) result }
{
    match tables.clock {
        Some(clock) => clock.scale(),
        None => Scale::Tdb,
    }
}

/// The scale of a system's times: UTC's are told by TAI, and a clock has its own.
fn scale_of(system: System, clock: Scale) -> Scale
    ensures { result ≡ scale_with system clock }
{
    match system {
        System::Utc | System::Tai => Scale::Tai,
        System::Tt => Scale::Tt,
        System::Tdb => Scale::Tdb,
        System::Sclk => clock,
    }
}

/// The text of a time that went its way.
pub fn print(
    alloc: Global,
    job: &Job,
    tables: &Lent,
    route: &Route,
    time: Point,
) -> Result<Line, TimeFault>
    requires ready { IsReady job.now }
    requires asked { HasAsked job.now (shown tables.now) }
    requires part { time.part < time.of }
    requires range { IsSource time.units }
    requires one { (is_clock job.now.from && is_clock job.now.to) ≡ false }
    ensures { PrintIs job.now route.now time (shown tables.now) result }
{
    match &job.shape {
        ToKind::Pictured(picture) => print_time(alloc, route, time, picture, tables.leaps),
        ToKind::Clock => print_clock(alloc, tables, route, time.units, TickForm::Clock),
        ToKind::Ticks => print_clock(alloc, tables, route, time.units, TickForm::Ticks),
    }
}

/// The text of the tick of a value that went its way.
fn print_clock(
    alloc: Global,
    tables: &Lent,
    route: &Route,
    units: i128,
    form: TickForm,
) -> Result<Line, TimeFault>
    requires clock { HasClockFor (shown tables.now) true }
    requires range { IsSource units }
    ensures { ClockPrintIs route.now units form (shown tables.now) result }
{
    match tables.clock {
        Some(clock) => print_tick(alloc, route, units, clock, form),
        None => unreachable!(),
    }
}

/// The text of the tick that a text is, from a clock to the same clock.
pub fn spell(alloc: Global, job: &Job, tables: &Lent, text: &[u8]) -> Result<Line, TimeFault>
    requires { HasClockFor (shown tables.now) true }
    ensures ok { IfOk result (λ said. SpellGives job.now (shown tables.now) text.now (Ok said)) }
    ensures err { IfErr result (λ fault. fault ≢ NoMemory → SpellGives job.now (shown tables.now) text.now (Err fault)) }
{
    match tables.clock {
        Some(clock) => {
            let tick = read_tick(text, clock, source_form(job.form))?;
            Ok(spell_tick(alloc, clock, tick, target_form(&job.shape))?)
        }
        None => unreachable!(),
    }
}

/// How the source's ticks are told.
fn source_form(kind: FromKind) -> TickForm
    ensures { result ≡ answer.source_form kind }
{
    match kind {
        FromKind::Ticks => TickForm::Ticks,
        _ => TickForm::Clock,
    }
}

/// How the target's ticks are told.
fn target_form(kind: &ToKind) -> TickForm
    ensures { result ≡ answer.target_form kind.now }
{
    match kind {
        ToKind::Ticks => TickForm::Ticks,
        _ => TickForm::Clock,
    }
}
