//! Laws of the definition by which words are told. Each function does nothing; its contract is the law.

ghost use Rattle.st_words.specs.Laws.{EachHasAnswer, EachJobIsGood, EachJobIsSpelled, OneAnswer, OneSetupClock, OneSetupFiles};

/// No words have two answers.
pub fn one_answer()
    ensures { OneAnswer }
{}

/// All words have an answer.
pub fn each_has_answer()
    ensures { EachHasAnswer }
{}

/// Each job that a session can be opened for has words that ask for it, where none of its texts names
/// an option.
pub fn each_job_is_spelled()
    ensures { EachJobIsSpelled }
{}

/// Each job that words ask for is one that a session can be opened for.
pub fn each_job_is_good()
    ensures { EachJobIsGood }
{}

/// A loaded setup names at most one clock and one list of files, and is refused for at most one reason.
pub fn one_setup()
    ensures clock { OneSetupClock }
    ensures files { OneSetupFiles }
{}
