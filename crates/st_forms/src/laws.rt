//! Laws of the definitions by which times are told. Each function does nothing; its contract is the
//! law.

ghost use Rattle.st_forms.specs.Laws.{EachHasAnswer, OneAnswer};

/// Every text is a time, or has a first refusal.
pub fn each_has_answer()
    ensures { EachHasAnswer }
{}

/// No text is two times, has two first refusals, or is a time that is refused: all its readings agree.
pub fn one_answer()
    ensures { OneAnswer }
{}
