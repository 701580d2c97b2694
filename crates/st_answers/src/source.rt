//! What a text of the source stands for.

ghost use Rattle.std.specs.Prelude.{◌≡◌, ◌<◌, IfOk, true};
ghost use Rattle.st_answers.specs.AskedSteps.{ClockTimeIs, HasAsked, HasClockFor, SourceIs, shown};
ghost use Rattle.st_answers.specs.Ready.{IsReady};
ghost use Rattle.st_answers.specs.Sides.{is_clock};
ghost use Rattle.st_routes.specs.Route.{IsSource};

use crate::asked::Lent;
use st_clock::Point;
use st_routes::{TickForm, TimeFault, read_instant, read_tick, tick_time};
use st_words::{FromKind, Job};

/// The time that a text of the source stands for, in the source's scale.
pub fn read_source(job: &Job, tables: &Lent, text: &[u8]) -> Result<Point, TimeFault>
    requires ready { IsReady job.now }
    requires asked { HasAsked job.now (shown tables.now) }
    ensures gives { SourceIs job.now text.now (shown tables.now) result }
    ensures part { IfOk result (λ time. time.part < time.of) }
    ensures range { IfOk result (λ time. IsSource time.units) }
{
    match job.form {
        FromKind::Time(form) => {
            let units = read_instant(text, job.from, form, tables.leaps)?;
            Ok(Point {
                units,
                part: 0,
                of: 1,
            })
        }
        FromKind::Clock => read_clock_time(tables, text, TickForm::Clock),
        FromKind::Ticks => read_clock_time(tables, text, TickForm::Ticks),
    }
}

/// The time of the tick that a text of the source's clock is.
fn read_clock_time(tables: &Lent, text: &[u8], form: TickForm) -> Result<Point, TimeFault>
    requires { HasClockFor (shown tables.now) true }
    ensures gives { ClockTimeIs form text.now (shown tables.now) result }
    ensures part { IfOk result (λ time. time.part < time.of) }
    ensures range { IfOk result (λ time. IsSource time.units) }
{
    match tables.clock {
        Some(clock) => tick_time(clock, read_tick(text, clock, form)?),
        None => unreachable!(),
    }
}
