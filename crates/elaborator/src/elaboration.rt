//! The flat design of modules and a top, or the first fault (IEEE 1364-2001 clause 12).

ghost use Rattle.std.specs.Prelude.{◌≡◌, ◌≤◌, ◌⊎◌, [], None, Ok, false, length, IfErr, IfOk, OnOk};
ghost use Rattle.design_model.specs.View.{design_view};
ghost use Rattle.elab_scope.specs.Tally.{after_all, after_faults, nothing_found};
ghost use Rattle.elab_scope.specs.View.{fault_view};
ghost use Rattle.elaborator.specs.Answered.{IsAnsweredFault, walked_top};
ghost use Rattle.elaborator.specs.Walk.{IsClean, WalksBy};
ghost use Rattle.flat_design.specs.Fault.{first_fault, told};
ghost use Rattle.flat_design.specs.Faults.{answer, faults_of, two_modules};
ghost use Rattle.flat_design.specs.Flat.{elaborated, elaborated_from, module_of, start, top_instance};
ghost use Rattle.flat_design.specs.Processes.{driver_faults};
ghost use Rattle.flat_design.specs.declared.fault.ElabFault.TheVariants as elab_fault;
ghost use Rattle.elab_instances.specs.InstanceView.{instantiation_view};
ghost use Rattle.tree_places.specs.Counted.{AreCountable};
ghost use Rattle.verilog_tree.specs.View.{module_view, modules_view};

use crate::ground::Ground;
use crate::instances::walk_instance;
use crate::modules::ModuleTable;
use crate::walk::Walk;
use cov_host::{Name, NoMemory, Sequence};
use design_model::Design;
use elab_conflicts::two_drivers;
use elab_const::ConstFault;
use elab_instances::Instantiation;
use elab_scope::{FoundFault, Tally};
use flat_design::{ElabFault, ElabKind};
use std::alloc::Global;
use verilog_tree::{Module, Modules};

/// The flat design of modules and the top of this name, or the first fault in the text. Memories are numbered after
/// all signals, so what is wrong is found first, with the number of signals, and then the design is built. The line
/// points and the counted nodes of a module can be numbered in 32 bits, as those of modules that are read can.
pub fn elaborate(alloc: Global, modules: &Modules, top: &str) -> Result<Design, ElabFault>
    requires { AreCountable (modules_view modules.now) }
    ensures design { IfOk result (λ design. answer (modules_view modules.now) top.now ≡ Ok (design_view design)) }
    ensures fault { IfErr result (IsAnsweredFault (modules_view modules.now) top.now) }
{
    let mut tally = Tally::new(alloc);
    let table = ModuleTable::new(alloc, modules.as_slice(), &mut tally)?;
    let found = find_faults(alloc, &table, top.as_bytes(), tally)?;
    if let Some(fault) = found.first() {
        return Err(told(alloc, fault));
    }
    let signals = found.counts().signals;
    Ok(build(alloc, &table, top.as_bytes(), signals)?)
}

/// All that is wrong with modules, drivers last, and what the limits count.
fn find_faults<'a>(
    alloc: Global,
    table: &ModuleTable<'a>,
    top: &'a [u8],
    tally: Tally<'a>,
) -> Result<Tally<'a>, NoMemory>
    requires { tally ≡ after_faults nothing_found (two_modules [] (modules_view table.now.modules.now)) }
    ensures first { IfOk result (λ found. found.first ≡ first_fault (faults_of (modules_view table.now.modules.now) top.entry.now)) }
    ensures signals { IfOk result (λ found. found.first ≡ None → found.counts.signals ≡ length (elaborated_from 0 (modules_view table.now.modules.now) top.entry.now (module_of (modules_view table.now.modules.now) top.entry.now)).design.signals) }
    ensures clean { IfOk result (λ found. found.first ≡ None → IsClean (after_all nothing_found (elaborated (modules_view table.now.modules.now) top.entry.now).met)) }
{
    let mut walk = Walk {
        tally,
        memories: 0,
        draft: None,
    };
    let ground = Ground {
        alloc,
        base: 0,
        modules: table,
    };
    walk_top(ground, top, &mut walk)?;
    let mut found = walk.tally;
    tell_drivers(alloc, &mut found)?;
    Ok(found)
}

/// The design of modules without a fault, whose memories are numbered after `signals` signals.
fn build<'a>(
    alloc: Global,
    table: &ModuleTable<'a>,
    top: &'a [u8],
    signals: u32,
) -> Result<Design, NoMemory>
    requires few { signals ≤ 65536 }
    requires clean { IsClean (after_all nothing_found (elaborated_from signals (modules_view table.now.modules.now) top.now (module_of (modules_view table.now.modules.now) top.now)).met) }
    ensures { IfOk result (λ design. design_view design ≡ (elaborated_from signals (modules_view table.now.modules.now) top.entry.now (module_of (modules_view table.now.modules.now) top.entry.now)).design) }
{
    let mut walk = Walk {
        tally: Tally::new(alloc),
        memories: 0,
        draft: Some(empty_design(alloc, top)?),
    };
    let ground = Ground {
        alloc,
        base: signals,
        modules: table,
    };
    walk_top(ground, top, &mut walk)?;
    let draft = walk.draft;
    match draft {
        Some(design) => Ok(design),
        None => unreachable!(),
    }
}

/// Elaborates the top with all below it.
fn walk_top<'a>(ground: Ground<'_, 'a>, top: &'a [u8], walk: &mut Walk<'a>) -> Result<(), NoMemory>
    requires base { ground.base ≤ 65536 }
    requires few { walk.old.tally.ended ≡ false → walk.old.memories ≤ walk.old.tally.counts.words }
    ensures { OnOk result (WalksBy ground.entry.base walk.old walk.new (λ b st. walked_top b (modules_view ground.entry.modules.now.modules.now) top.entry.now (module_of (modules_view ground.entry.modules.now.modules.now) top.entry.now) st)) }
{
    match ground.modules.find(top) {
        Some(module) => {
            let given = top_instance(ground.alloc, top, module)?;
            let _ = walk_instance(ground, 64, &given, walk)?;
        }
        None => walk
            .tally
            .fault(FoundFault::Modules(ElabKind::NoModule, None, top)),
    }
    Ok(())
}

/// The module at the top, under its name.
fn top_instance<'a>(
    alloc: Global,
    top: &[u8],
    module: &'a Module,
) -> Result<Instantiation<'a>, NoMemory>
    ensures { IfOk result (λ given. instantiation_view given ≡ top_instance top.now (module_view «module».now)) }
{
    let mut around = Vec::new(alloc);
    around.push(module)?;
    Ok(Instantiation {
        module,
        path: Name::from_vec(Vec::from_slice(alloc, top)?),
        overrides: Vec::new(alloc),
        aliases: Vec::new(alloc),
        around,
        item: module.name.place,
        is_top: true,
    })
}

/// The design before anything.
fn empty_design(alloc: Global, top: &[u8]) -> Result<Design, NoMemory>
    ensures { IfOk result (λ design. design_view design ≡ (start top.now).design) }
{
    Ok(Design {
        top: Name::from_vec(Vec::from_slice(alloc, top)?),
        instances: Sequence::new(alloc),
        signals: Sequence::new(alloc),
        memories: Sequence::new(alloc),
        processes: Sequence::new(alloc),
        constants: Sequence::new(alloc),
        aliases: Sequence::new(alloc),
    })
}

/// Reports the first place in the text at which a second driver is found.
fn tell_drivers(alloc: Global, tally: &mut Tally) -> Result<(), NoMemory>
    ensures { OnOk result (tally.new ≡ after_faults tally.old (driver_faults tally.old.writings)) }
{
    if let Some(name) = two_drivers(alloc, tally.writings())? {
        tally.fault(FoundFault::at(ElabKind::TwoDrivers, name));
    }
    Ok(())
}

/// The fault as callers see it, with a copy of its name.
fn told(alloc: Global, fault: FoundFault) -> ElabFault
    ensures { (result ≡ elab_fault.NoMemory) ⊎ (result ≡ told (fault_view fault.entry)) }
{
    match fault {
        FoundFault::Constant(kind, place) => ElabFault::Const(ConstFault::At { kind, place }),
        FoundFault::Modules(kind, place, name) => match Vec::from_slice(alloc, name) {
            Ok(name) => ElabFault::At {
                kind,
                place,
                detail: Name::from_vec(name),
            },
            Err(_) => ElabFault::NoMemory,
        },
    }
}
