//! How a run ended.

ghost use Rattle.std.specs.Prelude.{◌≡◌};
ghost use Rattle.st_batch.specs.LinesSteps as lines;
ghost use Rattle.st_batch.specs.Texts.{code_of};

use st_outside::SinkFault;
use st_refusals::LineFault;
use st_words::WordFault;

/// How a run ended. Its number is the program's exit status.
#[derive(Clone, Copy, Debug, PartialEq, Eq)]
pub enum Status {
    /// Every line was answered, and none refused.
    Done,
    /// Every line was answered, and at least one refused.
    SomeRefused,
    /// The words were refused.
    BadWords(WordFault),
    /// The setup was refused.
    BadSetup(LineFault),
    /// A read of the input failed.
    ReadFault,
    /// The output took no more.
    WriteFault,
    /// Memory was refused.
    OutOfMemory,
    /// The input has more than 67,108,864 bytes.
    InputTooLong,
}

impl Status {
    /// The exit status: 0 to 3 where the whole output was written, and more where it was cut off.
    pub fn code(&self) -> u8
        ensures { result ≡ code_of self.now }
    {
        match self {
            Status::Done => 0,
            Status::SomeRefused => 1,
            Status::BadWords(_) => 2,
            Status::BadSetup(_) => 3,
            Status::ReadFault => 4,
            Status::WriteFault => 5,
            Status::OutOfMemory => 6,
            Status::InputTooLong => 7,
        }
    }
}

/// How a run ends that a fault of the output or want of memory cut off.
pub fn stopped_by(fault: SinkFault) -> Status
    ensures { result ≡ lines.stopped_by fault }
{
    match fault {
        SinkFault::Failed => Status::WriteFault,
        SinkFault::OutOfMemory => Status::OutOfMemory,
    }
}
