//! The state of the reader among data.

ghost use Rattle.std.specs.Prelude.{◌≡◌, []};
ghost use Rattle.st_kernel_text.specs.ParserMachine as machine;
ghost use Rattle.st_kernel_text.specs.ParserMachine.{Gives, Answers, fresh, finish_of};

use crate::assignment::{Assignment, AssignmentList, Mode};
use crate::fault::{TextCause, TextFault};
use crate::value::ValueList;
use st_decimal::KText;
use std::alloc::Global;

/// What the bytes before have left off at.
#[derive(Clone, Copy, Debug)]
pub enum Stage {
    /// Between assignments.
    Fresh,
    /// In a name.
    Name,
    /// In the blanks after a name.
    Named,
    /// After a `+` that is not a name's.
    Plus,
    /// Between a sign and its value.
    Signed,
    /// Between the values of a list.
    InList,
    /// In a number or a date.
    Run,
    /// In a string.
    Quoted,
    /// After a `'` in a string, which ends it or is the first of two.
    Quote,
    /// After the last value of an assignment.
    Closed,
}

/// What the bytes of the data so far have given.
#[derive(Debug, Drop)]
pub struct Parser {
    /// The assignments that are at their end.
    pub done: AssignmentList,
    pub stage: Stage,
    /// The name of the assignment that is begun, its sign and the sign's line.
    pub name: KText,
    pub mode: Mode,
    pub sign: u64,
    /// The line of the `(` of its list, where it has one.
    pub opened: Option<u64>,
    pub values: ValueList,
    /// The bytes of the value that is begun, a string's without its quotes.
    pub run: KText,
}

impl Parser {
    /// The parser before the first byte.
    pub fn new(alloc: Global) -> Self
        ensures { result ≡ fresh [] }
    {
        Parser {
            done: AssignmentList::new(alloc),
            stage: Stage::Fresh,
            name: KText::new(alloc),
            mode: Mode::Set,
            sign: 0,
            opened: None,
            values: ValueList::new(alloc),
            run: KText::new(alloc),
        }
    }

    /// Keeps the assignment that is at its end, and begins anew after it.
    pub fn keep(&mut self) -> Result<(), TextFault>
        ensures { Gives self.new result (Ok (machine.kept self.old)) }
    {
        let name = self.name.take();
        let values = self.values.take();
        let mode = self.mode;
        self.done.push(Assignment { name, mode, values })?;
        // The parser is as it was before the first byte, but for what is done.
        self.stage = Stage::Fresh;
        self.mode = Mode::Set;
        self.sign = 0;
        self.opened = None;
        self.run.clear();
        Ok(())
    }

    /// The assignments, where the data may end here.
    #[tactic(auto, unfolding(crate::specs::ParserMachine::finish_in))]
    pub fn finish(self) -> Result<AssignmentList, TextFault>
        ensures { Answers result (finish_of self) }
    {
        if let Stage::Signed = self.stage {
            return Err(fault(self.sign, TextCause::NoValue));
        }
        match self.opened {
            Some(line) => Err(fault(line, TextCause::Unclosed)),
            None => Ok(self.done),
        }
    }
}

/// A fault at a line.
pub fn fault(line: u64, cause: TextCause) -> TextFault
    ensures { result ≡ TextFault.At line cause }
{
    TextFault::At { line, cause }
}
