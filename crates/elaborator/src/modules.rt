//! The modules by their names (IEEE 1364-2001, 12.1).

ghost use Rattle.std.specs.Prelude.{◌≡◌, [], ◌∷◌, IfOk, OnOk};
ghost use Rattle.std.specs.Option.{option_map};
ghost use Rattle.flat_design.specs.Faults.{two_modules};
ghost use Rattle.flat_design.specs.Flat.{module_of};
ghost use Rattle.tree_places.specs.Counted.{AreCountable};
ghost use Rattle.verilog_tree.specs.View.{module_view, modules_view};
ghost use Rattle.elaborator.specs.Modules.{first_places, module_faults, or_bound};
ghost use Rattle.elab_scope.specs.NameMap.{bound_to};
ghost use Rattle.elab_scope.specs.Tally.{after_faults};

use cov_host::NoMemory;
use elab_scope::{FoundFault, NameAt, NameMap, Tally};
use flat_design::ElabKind;
use std::alloc::Global;
use verilog_tree::Module;

/// The modules, and the place of the first of each name among them.
#[derive(Drop)]
pub(crate) struct ModuleTable<'a> {
    modules: &'a [Module],
    places: NameMap<usize>,
    ghost firsts: { bound_to places ≡ first_places 0 (modules_view modules.now) },
    ghost countable: { AreCountable (modules_view modules.now) },
}

impl<'a> ModuleTable<'a> {
    /// The modules by their names. Each further module of a name is a fault.
    pub(crate) fn new(
        alloc: Global,
        modules: &'a [Module],
        tally: &mut Tally<'a>,
    ) -> Result<ModuleTable<'a>, NoMemory>
        requires { AreCountable (modules_view modules.now) }
        ensures modules { IfOk result (λ table. table.modules.now ≡ modules.now) }
        ensures met { OnOk result (tally.new ≡ after_faults tally.old (two_modules [] (modules_view modules.now))) }
    {
        let mut places = NameMap::new(alloc);
        for (place, module) in modules.iter().enumerate() {
            note_module(&mut places, place, module, tally)?;
        }
        Ok(ModuleTable { modules, places })
    }

    /// The first module of a name.
    pub(crate) fn find(&self, name: &[u8]) -> Option<&'a Module>
        ensures { option_map (λ found. module_view found.now) result ≡ module_of (modules_view self.now.modules.now) name.now }
    {
        match self.places.get(name) {
            Some(place) => self.modules.get(*place),
            None => None,
        }
    }
}

/// Notes the place of a module, unless an earlier one has its name, which is a fault.
fn note_module<'a>(
    places: &mut NameMap<usize>,
    place: usize,
    new: &'a Module,
    tally: &mut Tally<'a>,
) -> Result<(), NoMemory>
    ensures places { OnOk result (bound_to places.new ≡ or_bound (bound_to places.old) (first_places place (module_view new.now ∷ []))) }
    ensures met { OnOk result (tally.new ≡ after_faults tally.old (module_faults (bound_to places.old) (module_view new.now))) }
{
    if places.get(new.name.name.as_slice()).is_some() {
        tally.fault(FoundFault::at(ElabKind::TwoModules, NameAt::of(&new.name)));
    } else {
        places.insert(new.name.name.as_slice(), place)?;
    }
    Ok(())
}
