//! Laws of the tables that loaded kernels give. Each function does nothing; its contract is the law.

ghost use Rattle.st_tables.specs.Laws.{LeapsAreOne, ConstantsAreOne, ClockIsOne, LeapsByTheirOwn, ConstantsByTheirOwn, ClockByItsOwn, NumbersAreAll, LeapsAreFound, ConstantsAreFound, ClockIsFound};

/// Loaded kernels give a table or a first refusal, never both, and no two of either.
pub fn one_answer()
    ensures leaps { LeapsAreOne }
    ensures constants { ConstantsAreOne }
    ensures clock { ClockIsOne }
{}

/// Any loaded kernels give each table, or refuse it for a first cause that isn't want of memory.
pub fn each_gives()
    ensures leaps { LeapsAreFound }
    ensures constants { ConstantsAreFound }
    ensures clock { ClockIsFound }
{}

/// A table depends on the values of its own variables alone.
pub fn by_their_own()
    ensures leaps { LeapsByTheirOwn }
    ensures constants { ConstantsByTheirOwn }
    ensures clock { ClockByItsOwn }
{}

/// The numbers of a variable that isn't of the wrong kind are all its values.
pub fn numbers_are_all()
    ensures { NumbersAreAll }
{}
