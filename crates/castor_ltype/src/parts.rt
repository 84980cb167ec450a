//! Both parts of a dependent join.

ghost use Rattle.std.specs.Prelude.{◌≡◌, IfOk};
ghost use Rattle.castor_code.specs.declared.code.Code.{Dep};
ghost use Rattle.castor_ltype.specs.Sizes as size;

use crate::laid::Laid;
use crate::nodes::dep;
use crate::sizes::added;
use castor_val::Memory;
use std::alloc::Global;

/// A dependent join over both its parts.
pub fn pair(alloc: Global, scope: u32, first: Laid, second: Laid) -> Result<Laid, Memory>
    ensures code { IfOk result (λ laid. laid.code ≡ Dep scope first.code second.code) }
    ensures sizes { IfOk result (λ laid. laid.sizes.items ≡ size.added first.sizes.items second.sizes.items) }
{
    let Laid { code: first, sizes } = first;
    let Laid {
        code: second,
        sizes: more,
    } = second;
    let sizes = added(alloc, sizes.as_slice(), more.as_slice())?;
    Ok(dep(alloc, scope, first, second, sizes)?)
}
