//! Why a time line isn't answered.

use st_decimal::OutOfMemory;
use st_routes::TimeFault;
use st_tables::TableFault;
use thiserror::Error;

/// Why a time line isn't answered. What it carries is never want of memory.
#[derive(Clone, Copy, Debug, PartialEq, Eq, Error)]
pub enum AnswerFault {
    /// The loaded kernels don't give a table that the job asks for.
    #[error("{0}")]
    Table(TableFault),
    /// The text is refused, or its time isn't printed.
    #[error("{0}")]
    Time(TimeFault),
    /// Memory was refused.
    #[error("out of memory")]
    OutOfMemory,
}

impl From<OutOfMemory> for AnswerFault {
    ghost use Rattle.std.specs.Prelude.{◌≡◌};
    ghost use Rattle.st_answers.specs.declared.fault.AnswerFault.TheVariants.{OutOfMemory as NoMemory};

    ghost from_gives = { λ _ fault. fault ≡ NoMemory };

    fn from(_error: OutOfMemory) -> AnswerFault {
        AnswerFault::OutOfMemory
    }
}

impl From<TableFault> for AnswerFault {
    ghost use Rattle.std.specs.Prelude.{◌≡◌};
    ghost use Rattle.st_answers.specs.FaultSteps.{of_table};

    ghost from_gives = { λ table fault. fault ≡ of_table table };

    fn from(fault: TableFault) -> AnswerFault {
        match fault {
            TableFault::OutOfMemory => AnswerFault::OutOfMemory,
            fault => AnswerFault::Table(fault),
        }
    }
}

impl From<TimeFault> for AnswerFault {
    ghost use Rattle.std.specs.Prelude.{◌≡◌};
    ghost use Rattle.st_answers.specs.FaultSteps.{of_time};

    ghost from_gives = { λ time fault. fault ≡ of_time time };

    fn from(fault: TimeFault) -> AnswerFault {
        match fault {
            TimeFault::OutOfMemory => AnswerFault::OutOfMemory,
            fault => AnswerFault::Time(fault),
        }
    }
}
