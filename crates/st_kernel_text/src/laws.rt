//! Laws of what a text kernel reads to. Each function does nothing; its contract is the law.

ghost use Rattle.st_kernel_text.specs.Laws.{EachFileHasAnswer, OneAnswer};
ghost use Rattle.st_kernel_text.specs.Written.{DateSpells, FixedSpells, WrittenReads};

/// Each file reads to its assignments, or has a first fault.
pub fn each_file_has_answer()
    ensures { EachFileHasAnswer }
{}

/// And it has one answer.
pub fn one_answer()
    ensures { OneAnswer }
{}

/// A number written with fixed decimals, and a date after an `@`, spell what they are worth.
pub fn written_numbers()
    ensures fixed { FixedSpells }
    ensures date { DateSpells }
{}

/// A kernel that is written as lists of numbers and single numbers reads to them.
pub fn written_reads()
    ensures { WrittenReads }
{}
