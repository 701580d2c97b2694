//! Laws of the definitions by which tables and labels are told. Each function does nothing; its
//! contract is the law.

ghost use Rattle.st_leaps.specs.Laws.{DayLengths, EachHasAnswer, EachHasLabel, EachTableCounts, EvenDaysCount, LabelOfFloor, LabelReturns, LabelsHaveTimes, LabelsRise, OneAnswer, OneLabel, OneTime, TablesCount, TimeReturns};

/// Every list of numbers is a table, or has a first rule that it breaks.
pub fn each_has_answer()
    ensures { EachHasAnswer }
{}

/// No list of numbers is two tables, breaks two first rules, or is a table that breaks a rule.
pub fn one_answer()
    ensures { OneAnswer }
{}

/// The counts of a table's days lie from -1 to 1,000.
pub fn each_table_counts()
    ensures { EachTableCounts }
{}

/// The same of the pairs of a table.
pub fn tables_count()
    ensures { TablesCount }
{}

/// The same of days that are all even, by which labels of TAI, TT and TDB are told.
pub fn even_days_count()
    ensures { EvenDaysCount }
{}

/// A day of UTC has 86,399, 86,400 or 86,401 seconds.
pub fn day_lengths()
    ensures { DayLengths }
{}

/// Each time has a label, whatever fraction of a second it is.
pub fn each_has_label()
    ensures { EachHasLabel }
{}

/// No time has two labels.
pub fn one_label()
    ensures { OneLabel }
{}

/// No label has two times.
pub fn one_time()
    ensures { OneTime }
{}

/// The labels of times are exactly those whose second is below the length of their day.
pub fn labels_have_times()
    ensures { LabelsHaveTimes }
{}

/// Labels rise with time, and time with labels.
pub fn labels_rise()
    ensures { LabelsRise }
{}

/// The label of a time is that of the last unit before it, a part of a unit later.
pub fn label_of_floor()
    ensures { LabelOfFloor }
{}

/// The label of a label's TAI is that label.
pub fn label_returns()
    ensures { LabelReturns }
{}

/// TAI of a TAI's label is that TAI.
pub fn time_returns()
    ensures { TimeReturns }
{}
