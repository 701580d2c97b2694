//! Laws of the samples. Each function does nothing; its contract is the law.

ghost use Rattle.st_samples.specs.Laws.{EachSampleHasLines, LabelsAreRead, LinesBeginWithDigits, LinesGoOn, OneSample, SecondsAreRead, SummaryGrows};

/// The seconds of each x are taken by the reader of times, for TAI, TT and TDB, as the instant that they count.
pub fn seconds_are_read()
    ensures { SecondsAreRead }
{}

/// The label of each x is taken by the reader of times as that label.
pub fn labels_are_read()
    ensures { LabelsAreRead }
{}

/// The summary of all answers is made one answer after the other.
pub fn summary_grows()
    ensures { SummaryGrows }
{}

/// A sample has as many lines as are asked for, for a job that is ready, where the loaded kernels give the clock of a source that is
/// one, or refuse it.
pub fn each_sample_has_lines()
    ensures { EachSampleHasLines }
{}

/// It has one list of them.
pub fn one_sample()
    ensures { OneSample }
{}

/// A sample of one line more has it after the others.
pub fn lines_go_on()
    ensures { LinesGoOn }
{}

/// Each line of a sample begins with a digit, so that none is a command.
pub fn lines_begin_with_digits()
    ensures { LinesBeginWithDigits }
{}
