//! What the tests of the whole program share: the files of the worked rows, their words and lines, and a run of
//! `st_batch` over the outside in memory.
//!
//! Nothing here is part of the program, and no contract cites it. `st_rows` and `st_hostile` stand on it.
#![tactic(auto)]

mod clocks;
mod folders;
mod lines;
mod rows;

pub use crate::clocks::put_clocks;
pub use crate::folders::{NAIF, files, folder};
pub use crate::lines::{add_line, million, repeated};
pub use crate::rows::{
    Outside, SAFE, SAFE_AND_SHORT, SHORT, add_word, batch, in_pieces, run_batch, run_row, to_tai,
    words,
};
