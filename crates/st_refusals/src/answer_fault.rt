//! The refusal of a line whose time is refused.

ghost use Rattle.std.specs.Prelude.{◌≡◌};
ghost use Rattle.st_refusals.specs.Faults as faults;

use crate::fault::LineFault;
use st_answers::AnswerFault;
use st_routes::TimeFault;
use st_tables::TableFault;

/// The refusal of a line whose answer is refused, where the clock is that with the id `-n`.
pub fn refusal_of(n: u32, fault: AnswerFault) -> LineFault
    ensures { result ≡ faults.answer_fault n fault }
{
    match fault {
        AnswerFault::Table(fault) => table_fault(n, fault),
        AnswerFault::Time(fault) => time_fault(fault),
        AnswerFault::OutOfMemory => LineFault::OutOfMemory,
    }
}

/// The refusal of a line whose tables are refused.
fn table_fault(n: u32, fault: TableFault) -> LineFault
    ensures { result ≡ faults.table_fault n fault }
{
    match fault {
        TableFault::NoVariable(var) => LineFault::NoVariable(var),
        TableFault::WrongKind(var) => LineFault::WrongKind(var),
        TableFault::Leaps(fault) => LineFault::BadLeaps(fault),
        TableFault::Deltet(fault) => LineFault::BadDeltet(fault),
        TableFault::Clock(fault) => LineFault::BadClock {
            var: fault.var,
            why: fault.why,
            n,
        },
        TableFault::OutOfMemory => LineFault::OutOfMemory,
    }
}

/// The refusal of a line whose time is refused.
fn time_fault(fault: TimeFault) -> LineFault
    ensures { result ≡ faults.time_fault fault }
{
    match fault {
        TimeFault::BadTime => LineFault::BadTime,
        TimeFault::WrongSystem => LineFault::WrongSystem,
        TimeFault::NoSuchDay => LineFault::NoSuchDay,
        TimeFault::OutOfRange => LineFault::OutOfRange,
        TimeFault::NoSuchSecond => LineFault::NoSuchSecond,
        TimeFault::BadClockText(fault) => LineFault::BadClockText(fault),
        TimeFault::BeforeClock => LineFault::BeforeClock,
        TimeFault::AfterClock => LineFault::AfterClock,
        TimeFault::Undecided => LineFault::Undecided,
        TimeFault::OutOfMemory => LineFault::OutOfMemory,
    }
}
