//! Maps from names, of which the first of equal ones counts.

ghost use Rattle.std.specs.Prelude.{◌≡◌, OnOk};
ghost use Rattle.elab_ports.specs.FirstBound.{only_bound, or_bound};
ghost use Rattle.elab_scope.specs.NameMap.{bound_to};

use cov_host::NoMemory;
use elab_scope::NameMap;

/// Binds a name to a value, unless it is bound.
pub(crate) fn bind_first<V: Drop>(
    map: &mut NameMap<V>,
    name: &[u8],
    value: V,
) -> Result<(), NoMemory>
    ensures { OnOk result (bound_to map.new ≡ or_bound (bound_to map.old) (only_bound name.now value)) }
{
    if map.get(name).is_none() {
        map.insert(name, value)?;
    }
    Ok(())
}
