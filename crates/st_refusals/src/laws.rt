//! Laws of the refusals. Each function does nothing; its contract is the law.

ghost use Rattle.st_refusals.specs.Laws.{FaultyIsFileFault, TablesNameNoMemory, TimesHaveNoCause, TimesNameNoMemory, UndecidedIsCarried};

/// A file that can't be read has one refusal.
pub fn faulty_is_file_fault()
    ensures { FaultyIsFileFault }
{}

/// The files are the cause of no refusal of a time.
pub fn times_have_no_cause()
    ensures { TimesHaveNoCause }
{}

/// A line is left undecided where its time is.
pub fn undecided_is_carried()
    ensures { UndecidedIsCarried }
{}

/// A time is refused for want of memory where that was its fault.
pub fn memory_is_carried()
    ensures tables { TablesNameNoMemory }
    ensures times { TimesNameNoMemory }
{}
