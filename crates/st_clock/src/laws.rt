//! Laws of clocks, over all fractions. These functions do nothing: their contracts are the laws.

ghost use Rattle.st_clock.specs.Return.{TickReturns, WayBackIsDecided};
ghost use Rattle.st_clock.specs.Laws.{TickRises, TickIsOne, TickIsFound, TickBetween, TickWithinHalf, TickWithinQuarter, TimeIsOne, StepsRise, PartsGiveClock, ClockIsFound};

/// Each time has one tick, and the ticks never fall as the time rises.
pub fn one_tick()
    ensures rises { TickRises }
    ensures one { TickIsOne }
    ensures found { TickIsFound }
    ensures between { TickBetween }
{}

/// A time near that of a covered tick has that tick.
pub fn near_tick()
    ensures half { TickWithinHalf }
    ensures quarter { TickWithinQuarter }
{}

/// Each tick has one time, and what is made of good values is a clock.
pub fn records()
    ensures time { TimeIsOne }
    ensures steps { StepsRise }
    ensures clock { PartsGiveClock }
{}

/// A covered tick's time, printed in TDB, gives that tick back.
pub fn way_back()
    ensures returns { TickReturns }
    ensures decided { WayBackIsDecided }
{}

/// Any values of the three variables give a clock of a face, or break a first rule.
pub fn each_has_answer()
    ensures { ClockIsFound }
{}
