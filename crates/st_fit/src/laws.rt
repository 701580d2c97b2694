//! The laws of a fit: each function is empty, and its contract is a law.

ghost use Rattle.st_fit.specs.Laws.{FitIsOne, FitIsFound, FitPasses, FitIsClock, FitIsFewest};

/// Each list of rising pairs has one fit.
pub fn one_fit()
    ensures one { FitIsOne }
    ensures found { FitIsFound }
{}

/// A fit passes within the tolerance of each pair, its records make a clock, and no good cutting has fewer.
pub fn fit_is_clock()
    ensures passes { FitPasses }
    ensures clock { FitIsClock }
    ensures fewest { FitIsFewest }
{}
