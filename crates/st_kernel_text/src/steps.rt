//! One byte of the data, in each stage.

ghost use Rattle.st_kernel_text.specs.ParserMachine.{Gives, step_of};

use crate::fault::TextFault;
use crate::names::{on_fresh, on_name, on_named, on_plus};
use crate::parser::{Parser, Stage};
use crate::values::{on_closed, on_list, on_quote, on_quoted, on_run, on_signed};

/// Reads one byte of a line, or the line feed that ends it.
#[tactic(auto, unfolding(crate::specs::ParserMachine::step_of))]
pub fn step(p: &mut Parser, line: u64, byte: u8) -> Result<(), TextFault>
    ensures { Gives p.new result (step_of p.old line byte) }
{
    match p.stage {
        Stage::Fresh => on_fresh(p, line, byte),
        Stage::Name => on_name(p, line, byte),
        Stage::Named => on_named(p, line, byte),
        Stage::Plus => on_plus(p, line, byte),
        Stage::Signed => on_signed(p, line, byte),
        Stage::InList => on_list(p, line, byte),
        Stage::Run => on_run(p, line, byte),
        Stage::Quoted => on_quoted(p, line, byte),
        Stage::Quote => on_quote(p, line, byte),
        Stage::Closed => on_closed(p, line, byte),
    }
}
