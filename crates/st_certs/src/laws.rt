//! The laws of certificates. The function does nothing: its contract is the laws.

ghost use Rattle.st_certs.specs.Laws.{ConstantsAreNamed, SoundIsTrue};

/// A sound certificate is true: its text is one that may be printed for the source that it names, by the constants, the way
/// and the picture that it names; these constants are those of a leapseconds kernel.
pub fn sound()
    ensures constants { ConstantsAreNamed }
    ensures is_true { SoundIsTrue }
{}
