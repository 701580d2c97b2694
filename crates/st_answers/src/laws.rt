//! Laws of the answers. Each function does nothing; its contract is the law.

ghost use Rattle.st_answers.specs.Laws.{EachJobIsTold, EachTextHasAnswer, ExactIsDecided, OneDecidedAnswer, OneExactAnswer, UndecidedHasASine};
ghost use Rattle.st_answers.specs.Returns.{CoveredTickReturns, TdbTickReturns, WayBackGivesTick};

/// Any loaded kernels give the tables that a job asks for, or refuse one.
pub fn each_job_is_told()
    ensures { EachJobIsTold }
{}

/// So every text has an answer.
pub fn each_text_has_answer()
    ensures { EachTextHasAnswer }
{}

/// Whatever stands on the way, a text has at most one answer that isn't left undecided, with the way back after it where that
/// is asked for.
pub fn one_decided_answer()
    ensures { OneDecidedAnswer }
{}

/// An answer is left undecided only where a sine stands on the way there or, where that is asked for, on the way back.
pub fn undecided_has_a_sine()
    ensures { UndecidedHasASine }
{}

/// Where no sine stands on the way no answer is left undecided.
pub fn exact_is_decided()
    ensures { ExactIsDecided }
{}

/// Where no sine stands on the way a text has one answer.
pub fn one_exact_answer()
    ensures { OneExactAnswer }
{}

/// A covered tick whose time is printed in TDB comes back from the printed text, where the tick lasts at least four units of
/// the last printed place and the number lies in the range of times: the way back gives the tick's canonical spelling and
/// nothing else; the answers are the text with that spelling, and UNDECIDED where the way there may be; and of a clock that is
/// kept in TDB the first alone.
pub fn covered_tick_returns()
    ensures way_back { WayBackGivesTick }
    ensures answers { CoveredTickReturns }
    ensures tdb { TdbTickReturns }
{}
