//! Laws of the lines of bytes. Each function does nothing; its contract is the law.

ghost use Rattle.st_text.specs.Laws.{LastLine, LineEnds, NoLine};

/// How bytes are cut into lines: at their first line feed, or not at all.
pub fn lines_are_cut()
    ensures none { NoLine }
    ensures first { LineEnds }
    ensures last { LastLine }
{}
