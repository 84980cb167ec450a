//! Layouts, read over their held data.

ghost use Rattle.std.specs.Prelude.{◌≡◌, IfOk, map, true};
ghost use Rattle.castor_val.specs.Values.{value_of};
ghost use Rattle.castor_alg.specs.Scopes.{unbound};
ghost use Rattle.castor_code.specs.Data.{fits};
ghost use Rattle.castor_code.specs.LayoutMeaning.{layout_meaning};
ghost use Rattle.castor_reader.specs.Replies.{IsReply};

use crate::reading::read;
use crate::reply::{Reply, reply_of};
use castor_alg::{Env, Held};
use castor_code::Code;
use castor_val::{Cell, Memory};
use std::alloc::Global;

/// Exactly the rows that held data has under a code and parameters, in order, or the faults where there are
/// some. Want of memory is the only refusal, so each code has a reply, an ill-typed one too. Texts of the
/// reply are borrowed.
///
/// Each operator costs, besides its operands: `Select`, `Filter`, `Concat` and `List` a time linear in the
/// rows; `Group` and `Dedup` linear in the rows on average; `Order` of the order n log n in the rows; `Cross`
/// its result. The look-up of a `Hash` or an `Ord` compares with as many keys as the number of entries can
/// be halved, twice as many for an `Ord`, and reads only the entries that it finds. The second operand of
/// `Dep` is read once for each row of the first.
pub fn answer_layout<'b>(
    alloc: Global,
    code: &'b Code,
    held: &'b Held,
    params: &[Cell<'b>],
) -> Result<Reply<'b>, Memory>
    requires { fits code.now held.now ≡ true }
    ensures { IfOk result (λ reply. IsReply (layout_meaning code.now held.now unbound (map value_of params.now)) reply) }
{
    let answer = read(code, held, alloc, &Env::Empty, params)?;
    Ok(reply_of(answer))
}
