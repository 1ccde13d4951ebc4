//! Which integers of a module are signals (IEEE 1364-2001 clause 3.9).

ghost use Rattle.std.specs.Prelude.{◌≡◌, IfOk};
ghost use Rattle.elab_scope.specs.NameSet.{has};
ghost use Rattle.flat_design.specs.Identifiers.{is_among};
ghost use Rattle.flat_design.specs.Instances as of;
ghost use Rattle.verilog_tree.specs.View.{module_view};

use crate::identifiers::add_item;
use crate::loop_names::add_item_loops;
use cov_host::NoMemory;
use elab_scope::NameSet;
use std::alloc::Global;
use verilog_tree::Module;

/// The names that the processes and the connections of a module use, and those over which its loops go.
#[derive(Drop)]
pub struct Uses<'a> {
    used: NameSet<'a>,
    loops: NameSet<'a>,
}

impl<'a> Uses<'a> {
    ghost use Rattle.elab_instances.specs.Uses.{named_by};

    /// The names of a module.
    pub fn new(alloc: Global, definition: &'a Module) -> Result<Uses<'a>, NoMemory>
        ensures { IfOk result (λ uses. named_by uses ≡ of.is_named_signal (module_view definition.now)) }
    {
        Ok(Uses {
            used: used_names(alloc, definition)?,
            loops: loop_variables(alloc, definition)?,
        })
    }

    /// Whether an integer is a signal: a process or a connection names it, and no loop is over it.
    pub fn is_named_signal(&self, name: &[u8]) -> bool
        ensures { result ≡ named_by self.now name.now }
    {
        self.used.has(name) && !self.loops.has(name)
    }
}

/// The names in processes and connections.
fn used_names<'a>(alloc: Global, definition: &'a Module) -> Result<NameSet<'a>, NoMemory>
    ensures { IfOk result (λ set. has set ≡ is_among (of.used_names (module_view definition.now))) }
{
    let mut names = NameSet::new(alloc);
    for item in definition.items.as_slice() {
        add_item(&mut names, &item.form)?;
    }
    Ok(names)
}

/// The names over which loops go.
fn loop_variables<'a>(alloc: Global, definition: &'a Module) -> Result<NameSet<'a>, NoMemory>
    ensures { IfOk result (λ set. has set ≡ is_among (of.loop_variables (module_view definition.now))) }
{
    let mut names = NameSet::new(alloc);
    for item in definition.items.as_slice() {
        add_item_loops(&mut names, &item.form)?;
    }
    Ok(names)
}
