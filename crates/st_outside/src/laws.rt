//! Laws of the states of files. Each function does nothing; its contract is the law.

ghost use Rattle.st_outside.specs.Laws.{CountsStay, FilesAreKept, FilesStay};

/// How calls on files follow one another: what nothing touched is kept, and what each of two calls keeps both keep.
pub fn files_are_kept()
    ensures counts { CountsStay }
    ensures none { FilesStay }
    ensures both { FilesAreKept }
{}
