//! Laws of the text of numbers. Each function does nothing; its contract is the law.

ghost use Rattle.st_decimal.specs.Laws.{FixedReads};

/// What `put_fixed` writes, `read_dec` reads as what it is worth.
pub fn fixed_reads()
    ensures { FixedReads }
{}
