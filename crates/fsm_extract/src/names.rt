//! The signals of a machine by their names.

ghost use Rattle.std.specs.Prelude.{◌≡◌, ◌<◌, ◌↔◌, ℕ, Err, IfNone, IfOk, IfSome, IsTrue, Ok, length};
ghost use Rattle.design_model.specs.Design.{signal_at};
ghost use Rattle.design_model.specs.Lawful.{IsLawfulDesign};
ghost use Rattle.design_model.specs.Points.{IsInstanceOf};
ghost use Rattle.design_model.specs.View.{design_view};
ghost use Rattle.state_machines.specs.Values.{IsNamedSignal};
ghost use Rattle.fsm_extract.specs.Fault.{IsMachine, NamesNone, NamesNoneAs};
ghost use Rattle.fsm_extract.specs.declared.names.MachineFault.TheVariants as machine_fault;
ghost use Rattle.fsm_extract.specs.declared.names.MachinePart.TheVariants as machine_part;

use crate::machine::width_of;
use design_model::Design;
use state_machines::signal_named;

/// What a machine is named by.
#[derive(Clone, Copy)]
pub enum MachinePart {
    /// The name of the module.
    Module,
    /// The name of the signal that has the state.
    In,
    /// The name of the signal that is assigned the next state.
    Out,
}

/// Why names are those of no machine.
#[derive(Clone, Copy)]
pub enum MachineFault {
    /// This part is at fault, the first one that is.
    NoMachine { at: MachinePart },
}

/// The signals that two names have in an instance of a module, also as aliases. What is wrong first is answered: the instance is
/// of no such module, the first name is of no signal, or the second name is of no signal or of one of another width. It takes
/// no memory.
pub fn find(
    design: &Design,
    of_module: &str,
    instance: u32,
    current: &str,
    next: &str,
) -> Result<(u32, u32), MachineFault>
    requires { IsLawfulDesign (design_view design.now) }
    ensures ok { IfOk result (λ found. IsMachine (design_view design.now) of_module.now instance current.now next.now found.0 found.1) }
    ensures found { (s t : ℕ) → IsMachine (design_view design.now) of_module.now instance current.now next.now s t → result ≡ Ok (s, t) }
    ensures no_module { (result ≡ Err (machine_fault.NoMachine machine_part.Module)) ↔ (IsInstanceOf (design_view design.now) instance of_module.now → ⊥) }
    ensures no_current { (result ≡ Err (machine_fault.NoMachine machine_part.In)) ↔ (IsInstanceOf (design_view design.now) instance of_module.now × NamesNone (design_view design.now) instance current.now) }
    ensures no_next { (result ≡ Err (machine_fault.NoMachine machine_part.Out)) ↔ (IsInstanceOf (design_view design.now) instance of_module.now × (s : ℕ) × IsNamedSignal (design_view design.now) instance current.now s × NamesNoneAs (design_view design.now) instance next.now s) }
{
    if !is_of_module(design, instance, of_module) {
        return Err(MachineFault::NoMachine {
            at: MachinePart::Module,
        });
    }
    match signal_named(design, instance, current.as_bytes()) {
        Some(from) => match signal_as(design, instance, next, from) {
            Some(to) => Ok((from, to)),
            None => Err(MachineFault::NoMachine {
                at: MachinePart::Out,
            }),
        },
        None => Err(MachineFault::NoMachine {
            at: MachinePart::In,
        }),
    }
}

/// Whether an instance is of a module.
fn is_of_module(design: &Design, instance: u32, of_module: &str) -> bool
    ensures { IsTrue result ↔ IsInstanceOf (design_view design.now) instance of_module.now }
{
    let instances = design.instances.as_slice();
    let number = instance as usize;
    number < instances.len() && instances[number].module.as_slice() == of_module.as_bytes()
}

/// The signal that a name in an instance is, if it has the width of another.
fn signal_as(design: &Design, instance: u32, name: &str, other: u32) -> Option<u32>
    requires lawful { IsLawfulDesign (design_view design.now) }
    requires listed { other < length design.now.signals }
    ensures some { IfSome result (IsNamedSignal (design_view design.now) instance name.now) }
    ensures width { IfSome result (λ s. (signal_at (design_view design.now) other).width ≡ (signal_at (design_view design.now) s).width) }
    ensures none { IfNone result (NamesNoneAs (design_view design.now) instance name.now other) }
{
    let signal = signal_named(design, instance, name.as_bytes())?;
    if width_of(design, other) == width_of(design, signal) {
        Some(signal)
    } else {
        None
    }
}
