//! Laws of the definitions by which `run` is told. Each function does nothing; its contract is the law.

ghost use Rattle.st_batch.specs.Laws.{EveryBeginningGoesOn, EveryLineHasAnswer, EveryLoadingGives, ExactIsDecided, GoodRunIsAnswered, OneAnswer, OneDecidedAnswer, OneDecidedOutput, OneDecidedRun, OneEnding, OneLoading, OneOutput, UndecidedHasASine};
ghost use Rattle.st_batch.specs.Returns.{CoveredLineReturns, CoveredOutputReturns, TdbLineReturns, TdbOutputReturns};

/// Every loading gives a loaded list, or a refusal that names no fault of the files.
pub fn every_loading_gives()
    ensures { EveryLoadingGives }
{}

/// Where the files tell their bytes a loading gives at most one thing, unless it names a fault of the files: one loaded list,
/// or one refusal.
pub fn one_loading()
    ensures { OneLoading }
{}

/// Where the input tells its bytes, what was read of it ends one list of lines. So a run that ended by a failed read has
/// written the answers to these and no others.
pub fn one_ending()
    ensures { OneEnding }
{}

/// Where the files and the input tell their bytes, words that ask for a job, a setup that opens a session by these bytes and
/// an input that isn't too long are answered, unless the setup is refused for a fault of the files: only a fault of the
/// input or the output, or want of memory, cuts the run off.
pub fn good_run_is_answered()
    ensures { GoodRunIsAnswered }
{}

/// Every line has an answer, by every loaded list, for a job that is ready, as the job of each session is.
pub fn every_line_has_an_answer()
    ensures { EveryLineHasAnswer }
{}

/// Where the files tell their bytes a line of a job that is ready has at most one answer, with a sine on the job's way or not,
/// that names no fault of the files and isn't left undecided: at most one text may be printed. The loaded list after the line
/// is one, left undecided or not.
pub fn one_decided_answer()
    ensures { OneDecidedAnswer }
{}

/// So two lists of answers to some lines agree wherever neither is left undecided, and leave one loaded list.
pub fn one_decided_run()
    ensures { OneDecidedRun }
{}

/// A line is left undecided only where a sine stands on the job's way there or, where that is asked for, on its way back.
pub fn undecided_has_a_sine()
    ensures { UndecidedHasASine }
{}

/// By a loaded list by which no sine stands on the job's way no line is left undecided.
pub fn exact_is_decided()
    ensures { ExactIsDecided }
{}

/// Where the files tell their bytes a line has at most one answer, with one loaded list after it, that names no fault of
/// the files, for a job that is ready and by a loaded list by which no sine stands on the job's way, as none does between
/// UTC, TAI and TT.
pub fn one_answer()
    ensures { OneAnswer }
{}

/// Answers to some first lines go on to answers to all lines, so that what was written of a run that was cut off begins
/// such answers: for a job that is ready.
pub fn every_beginning_goes_on()
    ensures { EveryBeginningGoesOn }
{}

/// Where the files and the input tell their bytes and the files had no fault, two whole outputs are one, or they are of answers
/// that agree wherever neither is left undecided.
pub fn one_decided_output()
    ensures { OneDecidedOutput }
{}

/// Where the files and the input tell their bytes and the files had no fault there is at most one whole output, so that
/// `run`, where it isn't cut off, is then a function of the words, the files and the input: where no sine stands on the
/// job's way by each loaded list by which a time among the lines is answered.
pub fn one_output()
    ensures { OneOutput }
{}

/// A clock string comes back after its time: a line whose text is read to a covered tick that lasts at least four units of the
/// last printed place is answered by the printed time and the tick's canonical spelling, or UNDECIDED where the way there can
/// be, where that time is a number in the range; and of a clock that is kept in TDB by the first alone.
pub fn covered_line_returns()
    ensures answers { CoveredLineReturns }
    ensures tdb { TdbLineReturns }
{}

/// So it is in whole outputs: of a run that answered all its lines, each such line has such an answer in its place.
pub fn covered_output_returns()
    ensures answers { CoveredOutputReturns }
    ensures tdb { TdbOutputReturns }
{}
