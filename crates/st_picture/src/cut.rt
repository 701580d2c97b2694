//! A text cut into its pieces, from the left.

ghost use Rattle.std.specs.Prelude.{◌≡◌, ◌<◌, ◌≤◌, ◌++◌, ◌∷◌, [], IfOk, OnOk, length, position};
ghost use Rattle.st_picture.specs.Mark.{IsCut, piece_text};
ghost use Rattle.st_picture.specs.ReadingMachine.{front_of, is_bad_byte};

use crate::front::{front, piece_len};
use crate::mark::Piece;
use st_decimal::OutOfMemory;
use std::alloc::Global;

/// The pieces of a text: the longest mark at each place, or a byte that stands for itself.
pub(crate) fn cut(alloc: Global, text: &[u8]) -> Result<Vec<Piece>, OutOfMemory>
    requires { length text.now ≤ 255 }
    ensures { IfOk result (λ pieces. IsCut text.now pieces.items) }
{
    let mut pieces = Vec::new(alloc);
    let mut rest = text;
    while !rest.is_empty() {
        let (piece, behind) = first_piece(rest);
        append(&mut pieces, piece)?;
        rest = behind;
    }
    Ok(pieces)
}

/// The piece with which a text begins, and the text after it.
fn first_piece(text: &[u8]) -> (Piece, &[u8])
    requires some { 0 < length text.now }
    requires few { length text.now ≤ 255 }
    ensures piece { result.0 ≡ front_of text.now }
    ensures rest { text.now ≡ piece_text result.0 ++ result.1.now }
    ensures less { length result.1.now < length text.now }
{
    let piece = front(text);
    let (_, rest) = text.split_at(piece_len(piece));
    (piece, rest)
}

/// Adds a piece at the end.
fn append(pieces: &mut Vec<Piece>, piece: Piece) -> Result<(), OutOfMemory>
    ensures { OnOk result (pieces.new.items ≡ pieces.old.items ++ piece ∷ []) }
{
    pieces.push(piece)?;
    Ok(())
}

/// The place of the first byte that is none from the space to `~`.
pub(crate) fn bad_byte(text: &[u8]) -> Option<usize>
    ensures { result ≡ position is_bad_byte text.now }
{
    text.iter().position(|byte| *byte < b' ' || *byte > b'~')
}
