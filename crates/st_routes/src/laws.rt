//! Laws of the definitions by which routes and their answers are told. Each public function does nothing; its contract is the
//! law, which follows from the laws of the crates below.

ghost use Rattle.st_routes.specs.LawSteps.{AreKnown};
ghost use Rattle.st_routes.specs.Laws.{EachHasAnswer, EachTextGivesInstant, EachTextGivesTick, ExactIsDecided, ExactIsOne, InstantIsSource, OneAnswer, OneInstant, OneOutcome, OneTick, OutcomeIsExact, TimeIsSource};

/// Of one route, source and target one outcome may be printed, and one answer tells it.
pub fn one_outcome()
    ensures outcome { OneOutcome }
    ensures answer { OneAnswer }
{
    known();
}

/// Where no sine stands on the way, exactly the outcome of the shifted source may be printed, and nothing is undecided: there
/// is one answer.
pub fn exact()
    ensures outcome { OutcomeIsExact }
    ensures decided { ExactIsDecided }
    ensures one { ExactIsOne }
{
    known();
}

/// Each source has an answer that tells an outcome, or may be left undecided.
pub fn each_has_answer()
    ensures { EachHasAnswer }
{
    known();
}

/// Each text of a system gives an instant or a refusal, and one.
pub fn instants()
    ensures found { EachTextGivesInstant }
    ensures one { OneInstant }
{
    st_forms::laws::each_has_answer();
    st_forms::laws::one_answer();
}

/// Each text of a clock gives a tick or a refusal, and one.
pub fn ticks()
    ensures found { EachTextGivesTick }
    ensures one { OneTick }
{
    st_ticks::laws::reading();
}

/// Instants of texts, and times of ticks, are sources.
pub fn sources()
    ensures instant { InstantIsSource }
    ensures time { TimeIsSource }
{
    st_forms::laws::one_answer();
    st_leaps::laws::each_table_counts();
    st_leaps::laws::even_days_count();
}

/// What the crates below say of values, cells and ticks.
fn known()
    ensures { AreKnown }
{
    st_leaps::laws::each_table_counts();
    st_leaps::laws::even_days_count();
    st_leaps::laws::one_label();
    st_picture::laws::cells_never_fall();
    st_picture::laws::each_has_cell();
    st_picture::laws::cells_are_of_unit();
    st_picture::laws::one_text();
    st_scales::laws::one_value();
    st_scales::laws::order();
    st_ticks::laws::spelling();
    st_clock::laws::one_tick();
}
