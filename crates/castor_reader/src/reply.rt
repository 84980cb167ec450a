//! Replies to questions.

ghost use Rattle.castor_reader.specs.Answers.{out_of};
ghost use Rattle.castor_reader.specs.Replies.{IsReply};

use crate::answer::Answer;
use castor_val::{Cell, Faults};

/// The rows of a layout, in order, or the faults that were met where there are some.
#[derive(Drop)]
pub enum Reply<'b> {
    Rows(Vec<Vec<Cell<'b>>>),
    Faults(Faults),
}

/// The reply that an answer gives.
pub fn reply_of<'b>(answer: Answer<'b>) -> Reply<'b>
    ensures { IsReply (out_of answer.entry) result }
{
    let Answer { rows, faults } = answer;
    if faults.is_empty() {
        Reply::Rows(rows)
    } else {
        Reply::Faults(faults)
    }
}
