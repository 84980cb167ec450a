//! The replies of an image to the lines of an input.

ghost use Rattle.std.specs.Prelude.{◌≡◌, ◌≤◌, Some, IfOk, IfErr, OnOk, OnErr};
ghost use Rattle.std.specs.Io.KnownBytes.{Appends};
ghost use Rattle.castor_base.specs.Causes.{Rose};
ghost use Rattle.castor_cli.specs.Answers.{answers, content_in, line_text, reply_to};
ghost use Rattle.castor_base.specs.Moves.{AppendsPrefix};
ghost use Rattle.castor_cli.specs.Printing.{RoseIfFailed};

use crate::lines::cut_line;
use crate::reply::reply_text;
use castor_base::{Sink, Steps, put_all};
use castor_image::Image;
use castor_load::read_line;
use castor_reader::ask;
use castor_val::{Memory, Row};
use std::alloc::Global;
use std::sync::ledger::Ledger;

// The reply to the values of a line.
fn reply_to<L: Ledger>(
    alloc: Global,
    image: &Image<'_>,
    params: &Row,
    steps: &mut Steps<L>,
) -> Result<Vec<u8>, Memory>
    ensures text { IfOk result (λ reply. reply.items ≡ reply_to (content_in image.now) (Some params.now)) }
    ensures steps { steps.new ≡ steps.old }
{
    let cells = params.cells(alloc)?;
    match ask(alloc, image, cells.as_slice(), steps) {
        Ok(reply) => reply_text(alloc, image.head(), &reply),
        Err(Memory) => Err(Memory),
    }
}

/// The reply of an image to a line, without its line feed: `bad parameters` where the line's fields aren't
/// values of the parameters, and else the text of what the image answers to them.
///
/// Linear in the line and in the text, with what asking the image costs. No step is taken yet.
pub fn answer_line<L: Ledger>(
    alloc: Global,
    image: &Image<'_>,
    line: &[u8],
    steps: &mut Steps<L>,
) -> Result<Vec<u8>, Memory>
    ensures text { IfOk result (λ reply. reply.items ≡ line_text (content_in image.now) line.now) }
    ensures steps { steps.new ≡ steps.old }
{
    match read_line(alloc, image.head().params.as_slice(), line)? {
        Some(params) => reply_to(alloc, image, &params, steps),
        None => Ok(Vec::from_slice(alloc, b"bad parameters\n")?),
    }
}

/// Why not all replies were printed.
#[derive(Clone, Copy, Debug, PartialEq, Eq)]
pub enum PrintError {
    /// The output failed.
    Failed,
    /// There was no memory for a reply.
    Memory,
}

/// Prints the replies to the lines of an input, each by one call of `put_all`.
///
/// `Failed` comes only where the output's count of faults rose. After a refusal a prefix of the
/// replies went out. Each line costs what asking the image costs; memory is one reply and what
/// asking takes.
pub fn print_answers<O: Sink, L: Ledger>(
    alloc: Global,
    image: &Image<'_>,
    input: &[u8],
    out: &mut O,
    steps: &mut Steps<L>,
) -> Result<(), PrintError>
    ensures ok { OnOk result (Appends (O.given out.old) (O.given out.new) (answers (content_in image.now) input.now)) }
    ensures err { OnErr result (AppendsPrefix (O.given out.old) (O.given out.new) (answers (content_in image.now) input.now)) }
    ensures cause { IfErr result (RoseIfFailed (Rose (O.faults out.old) (O.faults out.new))) }
    ensures later { O.faults out.old ≤ O.faults out.new }
    ensures steps { steps.new ≡ steps.old }
{
    let mut rest = input;
    while !rest.is_empty() {
        let cut = cut_line(rest);
        let Ok(reply) = answer_line(alloc, image, cut.line, steps) else {
            return Err(PrintError::Memory);
        };
        match put_all(out, &reply) {
            Ok(()) => rest = cut.rest,
            Err(_) => return Err(PrintError::Failed),
        }
    }
    Ok(())
}
