//! Laws of clock strings and ticks. Each function does nothing: its contract is the law.

ghost use Rattle.st_ticks.specs.Laws.{CanonicalIsOne, CanonicalReads, FaceIsFound, FieldsAreFound, FieldsAreOne, FieldsCarry, InsideIsWithin, PartitionIsFound, PartitionIsOne, ReadingIsFound, ReadingIsOne, TickIsWithin};

/// Fields are mixed radix numbers: one more in a field is its right neighbour's modulus more there,
/// and each count has one list of fields of which only the first exceeds its modulus.
pub fn fields()
    ensures carry { FieldsCarry }
    ensures found { FieldsAreFound }
    ensures one { FieldsAreOne }
{}

/// Each tick has one partition, and a tick strictly inside its partition is one of the clock.
pub fn partitions()
    ensures one { PartitionIsOne }
    ensures found { PartitionIsFound }
    ensures inside { InsideIsWithin }
{}

/// Each text has one answer, and the tick of a string is one of the clock.
pub fn reading()
    ensures one { ReadingIsOne }
    ensures found { ReadingIsFound }
    ensures within { TickIsWithin }
{}

/// Each tick has one canonical spelling, which is read as that tick.
pub fn spelling()
    ensures one { CanonicalIsOne }
    ensures reads { CanonicalReads }
{}

/// Any values of the six variables make a face, or break a first rule.
pub fn each_has_answer()
    ensures { FaceIsFound }
{}
