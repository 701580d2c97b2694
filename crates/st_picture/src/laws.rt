//! Laws of the definitions by which cells and pictures are told. Each function does nothing; its
//! contract is the law.

ghost use Rattle.st_picture.specs.Laws.{CalendarCells, CalendarTexts, CellBetween, CellOfFloor, CellsAreOfUnit, CellsNeverFall, DefaultsAreRead, EachHasCell, EachHasCut, EachHasReading, EachHasText, HalvesAreUnits, OneCell, OneCut, OneReading, OneText, OneTextOfValue, SecondsTexts, TextsArePlain};

/// Each value from the year 4 on has a cell, whatever fraction of a second it is.
pub fn each_has_cell()
    ensures { EachHasCell }
{}

/// No value has two cells.
pub fn one_cell()
    ensures { OneCell }
{}

/// Cells never fall as the value rises.
pub fn cells_never_fall()
    ensures { CellsNeverFall }
{}

/// What lies between two values of one cell has that cell.
pub fn cell_between()
    ensures { CellBetween }
{}

/// A value between two whole numbers of units has the cell of the lower one.
pub fn cell_of_floor()
    ensures { CellOfFloor }
{}

/// Half of a unit is a whole number of units of 10^-18 s.
pub fn halves_are_units()
    ensures { HalvesAreUnits }
{}

/// Each text has a cut into marks and other bytes.
pub fn each_has_cut()
    ensures { EachHasCut }
{}

/// No text has two cuts.
pub fn one_cut()
    ensures { OneCut }
{}

/// No text has two answers as a picture for a system.
pub fn one_reading()
    ensures { OneReading }
{}

/// The cells of a unit have the unit's form.
pub fn cells_are_of_unit()
    ensures { CellsAreOfUnit }
{}

/// A cell has one text by a picture.
pub fn one_text()
    ensures { OneText }
{}

/// Each value from the year 4 on has a text by a picture.
pub fn each_has_text()
    ensures { EachHasText }
{}

/// A value has one text by a picture.
pub fn one_text_of_value()
    ensures { OneTextOfValue }
{}

/// `YYYY-MM-DDTHR:MN:SC.###` and `SP2000.######` are pictures, the latter for all systems but UTC.
pub fn defaults_are_read()
    ensures { DefaultsAreRead }
{}

/// `YYYY-MM-DDTHR:MN:SC.###` prints of a day and its milliseconds the plain formula, and nothing else.
pub fn calendar_cells()
    ensures { CalendarCells }
{}

/// `YYYY-MM-DDTHR:MN:SC.###` prints of a value the plain formula of its label, and nothing else.
pub fn calendar_texts()
    ensures { CalendarTexts }
{}

/// `SP2000.######` prints of a value its microseconds, truncated downwards, and nothing else.
pub fn seconds_texts()
    ensures { SecondsTexts }
{}

/// Each text has an answer as a picture for a system.
pub fn each_has_reading()
    ensures { EachHasReading }
{}

/// The texts of pictures have bytes from the space to `~` alone.
pub fn texts_are_plain()
    ensures { TextsArePlain }
{}
