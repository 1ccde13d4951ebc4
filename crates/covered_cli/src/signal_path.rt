ghost use Rattle.std.specs.Prelude.{◌≡◌, ◌<◌, length, slice_index_or};
ghost use Rattle.design_model.specs.Design.{path_of};
ghost use Rattle.design_model.specs.Lawful.{IsLawfulDesign};
ghost use Rattle.design_model.specs.View.{design_view};

use cov_host::{Name, Sequence};
use design_model::{Design, Instance, Signal};
use std::alloc::Global;
use std::marker::Model;
use std::mem;

/// The path of a signal, as the two names that a design has of it.
#[derive(Drop)]
pub(crate) struct SignalPath {
    /// The path of its instance.
    pub(crate) instance: Name,
    /// Its name in its module.
    pub(crate) name: Name,
}

impl Model for SignalPath {
    ghost use Rattle.std.specs.Prelude.{◌∷◌, ◌++◌, ℕ, List};

    ghost Value = { List ℕ };

    ghost view = { λ path. path.instance ++ 46 ∷ path.name };
}

impl SignalPath {
    /// The path of the signal with this number. Its names are moved out of the design, which is of no use after that.
    pub(crate) fn of(alloc: Global, design: &mut Design, signal: usize) -> Self
        requires lawful { IsLawfulDesign (design_view design.old) }
        requires signal { signal < length design.old.signals }
        ensures { result ≡ path_of (design_view design.old) signal }
    {
        let Signal { instance, name, .. } = take(alloc, &mut design.signals, signal);
        let Instance { path, .. } = take(alloc, &mut design.instances, instance as usize);
        SignalPath {
            instance: path,
            name,
        }
    }
}

/// Takes an item out, and lets the others go. It takes no memory.
fn take<T: Drop>(alloc: Global, items: &mut Sequence<T>, place: usize) -> T
    requires { place < length items.old }
    ensures { result ≡ slice_index_or items.old place result }
{
    let mut all = mem::replace(items, Sequence::new(alloc)).into_vec();
    all.swap_remove(place)
}
