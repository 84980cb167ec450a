//! The code for a query whose data is held.

ghost use Rattle.std.specs.Prelude.{◌≡◌, ◌∷◌, [], IfOk, IsOkAnd, length, slice_index_or, true};
ghost use Rattle.castor_code.specs.Data.{data_of};
ghost use Rattle.castor_ltype.specs.Formed.{is_sized};
ghost use Rattle.castor_ltype.specs.Generation.{code_for};
ghost use Rattle.castor_ltype.specs.Layouts.{FitsHeld, HasTypes, IsFormed, MeansQuery};
ghost use Rattle.castor_ltype.specs.Places as place;
ghost use Rattle.castor_ltype.specs.Sizes.{IsLaid};

use crate::formed::sized;
use crate::laid::Laid;
use crate::laying::lay;
use castor_alg::{Context, Held, Rel, TypeEnv};
use castor_code::Code;
use castor_val::Memory;
use sqlite_items::Items;
use std::alloc::Global;

/// A code, and the number of bytes that what is held takes under it.
#[derive(Drop)]
pub struct Layout {
    pub code: Code,
    pub size: u64,
}

/// The code for what is held for a query: with the nodes that the query's operators have, each range the
/// least that holds all that stands at its place, and from 0 to 0 where nothing stands.
///
/// A `List`, a `Hash` and an `Ord` have a code without one for their source. The ranges of counts are over
/// the numbers of children and entries, those of bodies over the numbers of their bytes, without the
/// offsets of an index, and those of texts over lengths in bytes. The call answers for each query and for
/// held data of any shape; the other clauses are for a query that `stage` accepts and for what `hold` gives
/// for it. One walk over the held data for its values and sizes, which keeps a reference to each node of
/// one level at a time, and besides the copies of the query's expressions.
pub fn generate(alloc: Global, q: &Rel, held: &Held, types: &Context) -> Result<Code, Memory>
    ensures value { IfOk result (λ code. code ≡ code_for q.now types.now held.now) }

    // The code has the column types of the query.
    ensures types { IfOk result (HasTypes q.now types.now) }

    // What is held over tables of the types fits the code.
    ensures fits { IfOk result (FitsHeld q.now types.now held.now) }

    // The code of a query of at most 4,096 nodes and a depth of at most 64 is well formed.
    ensures formed { IfOk result (IsFormed q.now types.now) }

    // What is held, read under the code, means what the query means.
    ensures meaning { IfOk result (MeansQuery q.now held.now) }
{
    let Layout { code, size: _ } = lay_out(alloc, q, held, types)?;
    Ok(code)
}

/// The code that `generate` gives, with the number of bytes of what is held. Costs the same.
pub fn lay_out(alloc: Global, q: &Rel, held: &Held, types: &Context) -> Result<Layout, Memory>
    ensures value { IfOk result (λ layout. layout.code ≡ code_for q.now types.now held.now) }
    ensures size { IfOk result (λ layout. layout.size ≡ length (data_of layout.code held.now)) }
    ensures types { IfOk result (λ layout. HasTypes q.now types.now layout.code) }
    ensures fits { IfOk result (λ layout. FitsHeld q.now types.now held.now layout.code) }
    ensures formed { IfOk result (λ layout. IsFormed q.now types.now layout.code) }
    ensures meaning { IfOk result (λ layout. MeansQuery q.now held.now layout.code) }
{
    let layout = least_layout(alloc, q, held, types);
    sized_layout(layout)
}

// The numbers of the code have their sizes.
fn sized_layout(layout: Result<Layout, Memory>) -> Result<Layout, Memory>
    ensures same { IfOk result (λ seen. IsOkAnd layout (λ given. seen ≡ given)) }
    ensures sizes { IfOk result (λ seen. is_sized seen.code ≡ true) }
{
    let Layout { code, size } = layout?;
    Ok(Layout {
        code: sized(code),
        size,
    })
}

fn least_layout(alloc: Global, q: &Rel, held: &Held, types: &Context) -> Result<Layout, Memory>
    ensures value { IfOk result (λ layout. layout.code ≡ code_for q.now types.now held.now) }
    ensures size { IfOk result (λ layout. layout.size ≡ length (data_of layout.code held.now)) }
{
    let nothing = Held::Parts(Items::new(alloc));
    let laid = lay_one(alloc, q, held, &nothing, types);
    let_go(nothing);
    layout_of(laid)
}

// The code and the first size.
fn layout_of(laid: Result<Laid, Memory>) -> Result<Layout, Memory>
    ensures code { IfOk result (λ layout. IsOkAnd laid (λ laid. layout.code ≡ laid.code)) }
    ensures size { IfOk result (λ layout. IsOkAnd laid (λ laid. layout.size ≡ slice_index_or laid.sizes.items 0 0)) }
{
    let Laid { code, sizes } = laid?;
    let size = first_size(sizes.as_slice());
    Ok(Layout { code, size })
}

fn first_size(sizes: &[u64]) -> u64
    ensures { result ≡ slice_index_or sizes.now 0 0 }
{
    match sizes.first() {
        Some(size) => *size,
        None => 0,
    }
}

fn let_go(_: Held) {}

fn lay_one(
    alloc: Global,
    q: &Rel,
    held: &Held,
    nothing: &Held,
    types: &Context,
) -> Result<Laid, Memory>
    requires { nothing.now ≡ place.nothing }
    ensures { IfOk result (IsLaid (code_for q.now types.now held.now) (held.now ∷ [])) }
{
    let env = TypeEnv::Outer(types);
    lay(alloc, q, &[held], nothing, &env)
}
