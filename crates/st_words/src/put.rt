//! The texts of the faults of words.

ghost use Rattle.std.specs.Prelude.{◌≡◌, ◌++◌, OnOk, OnErr};
ghost use Rattle.st_words.specs.Text as texts;

use crate::fault::WordFault;
use crate::opt::Opt;
use st_decimal::OutOfMemory;
use st_picture::PictureFault;
use st_text::put_padded;

/// Appends the text of a fault of words: its name, and then its place, its options, or the name of the
/// picture's fault, with one blank between them. Want of memory has no text.
///
/// # Errors
///
/// `OutOfMemory`; nothing is then appended.
pub fn put_word_fault(out: &mut Vec<u8>, fault: &WordFault) -> Result<(), OutOfMemory>
    ensures ok { OnOk result (out.new.items ≡ out.old.items ++ texts.fault_text fault.now) }
    ensures err { OnErr result (out.new.items ≡ out.old.items) }
{
    let mut text = Vec::new(*out.allocator());
    match *fault {
        WordFault::Unknown(place) => put_place(&mut text, b"UNKNOWN ", place)?,
        WordFault::Twice(place) => put_place(&mut text, b"TWICE ", place)?,
        WordFault::NoValue(place) => put_place(&mut text, b"NO_VALUE ", place)?,
        WordFault::BadValue(place) => put_place(&mut text, b"BAD_VALUE ", place)?,
        WordFault::BadNumber(place) => put_place(&mut text, b"BAD_NUMBER ", place)?,
        WordFault::Missing(opt) => put_option(&mut text, b"MISSING ", opt)?,
        WordFault::BadPair(opt) => put_option(&mut text, b"BAD_PAIR ", opt)?,
        WordFault::Conflict(first, second) => put_options(&mut text, first, second)?,
        WordFault::BadPicture(fault) => put_picture_fault(&mut text, fault)?,
        WordFault::OutOfMemory => {}
    }
    out.extend_from_slice(text.as_slice())
}

/// Appends a name and the place of a word.
fn put_place(out: &mut Vec<u8>, name: &[u8], place: usize) -> Result<(), OutOfMemory>
    ensures { OnOk result (out.new.items ≡ out.old.items ++ (name.now ++ texts.place_text place)) }
{
    out.extend_from_slice(name)?;
    put_padded(out, place as u128, 1)?;
    Ok(())
}

/// Appends a name and an option.
fn put_option(out: &mut Vec<u8>, name: &[u8], opt: Opt) -> Result<(), OutOfMemory>
    ensures { OnOk result (out.new.items ≡ out.old.items ++ (name.now ++ texts.option_text opt)) }
{
    out.extend_from_slice(name)?;
    out.extend_from_slice(opt.word().as_bytes())?;
    Ok(())
}

/// Appends two options that exclude each other.
fn put_options(out: &mut Vec<u8>, first: Opt, second: Opt) -> Result<(), OutOfMemory>
    ensures { OnOk result (out.new.items ≡ out.old.items ++ texts.conflict_text first second) }
{
    put_option(out, b"CONFLICT ", first)?;
    put_option(out, b" ", second)?;
    Ok(())
}

/// Appends the fault of a picture.
fn put_picture_fault(out: &mut Vec<u8>, fault: PictureFault) -> Result<(), OutOfMemory>
    ensures { OnOk result (out.new.items ≡ out.old.items ++ texts.picture_text fault) }
{
    match fault {
        PictureFault::BadByte(place) => put_place(out, b"PICTURE BAD_BYTE ", place),
        PictureFault::TooLong => out.extend_from_slice(b"PICTURE TOO_LONG"),
        PictureFault::LeftOutMark => out.extend_from_slice(b"PICTURE LEFT_OUT_MARK"),
        PictureFault::StrayHash => out.extend_from_slice(b"PICTURE STRAY_HASH"),
        PictureFault::TooManyPlaces => out.extend_from_slice(b"PICTURE TOO_MANY_PLACES"),
        PictureFault::Empty => out.extend_from_slice(b"PICTURE EMPTY"),
        PictureFault::MixedForms => out.extend_from_slice(b"PICTURE MIXED_FORMS"),
        PictureFault::CountInUtc => out.extend_from_slice(b"PICTURE COUNT_IN_UTC"),
        PictureFault::WrongSystem => out.extend_from_slice(b"PICTURE WRONG_SYSTEM"),
        PictureFault::NoUnit => out.extend_from_slice(b"PICTURE NO_UNIT"),
        PictureFault::OutOfMemory => Ok(()),
    }
}
