//! Questions to images.

ghost use Rattle.std.specs.Prelude.{◌≡◌, IfOk, map};
ghost use Rattle.castor_val.specs.Values.{value_of};
ghost use Rattle.castor_alg.specs.Scopes.{unbound};
ghost use Rattle.castor_code.specs.LayoutMeaning.{layout_meaning};
ghost use Rattle.castor_reader.specs.Replies.{IsReply};

use crate::layout::answer_layout;
use crate::reply::Reply;
use castor_base::Steps;
use castor_image::Image;
use castor_val::{Cell, Memory};
use std::alloc::Global;
use std::sync::ledger::Ledger;

/// Exactly the rows that an image gives for these parameters, in order, or the faults where there are some.
/// Texts of the reply are parts of the image or of the parameters; none is copied. Costs what
/// `answer_layout` costs.
///
/// The data is read from the tree that the image keeps beside its bytes, so no step is taken: the counter
/// stays as it was.
pub fn ask<'a, 'b, L: Ledger>(
    alloc: Global,
    image: &'b Image<'a>,
    params: &[Cell<'b>],
    steps: &mut Steps<L>,
) -> Result<Reply<'b>, Memory>
    ensures reply { IfOk result (λ reply. IsReply (layout_meaning image.now.code image.now.held unbound (map value_of params.now)) reply) }
    ensures steps { steps.new ≡ steps.old }
{
    answer_layout(alloc, image.code(), image.decoded(), params)
}
