//! Nets that are declared with a value (IEEE 1364-2001 clause 6.1.1).

ghost use Rattle.std.specs.Prelude.{◌≡◌, IfSome, OnOk};
ghost use Rattle.elab_processes.specs.Nets.{driven_net as spec_driven_net, value_reads};
ghost use Rattle.elab_scope.specs.Entries.{IsVectorRange};
ghost use Rattle.elab_scope.specs.Tally.{after_all, after_faults};
ghost use Rattle.elab_scope.specs.View.{IsWithin, writing_view};
ghost use Rattle.flat_design.specs.Expressions.{faults};
ghost use Rattle.flat_design.specs.Fault.{none};
ghost use Rattle.flat_design.specs.Processes as spec;
ghost use Rattle.flat_design.specs.Scope.{binding_of, look_up};
ghost use Rattle.flat_design.specs.Targets.{target_faults};
ghost use Rattle.flat_design.specs.declared.entry.Mode.TheVariants.{Continuous};
ghost use Rattle.verilog_tree.specs.Tree.{identifier};
ghost use Rattle.verilog_tree.specs.View.{expr_view};

use crate::joined::whole;
use crate::reads::check_reads;
use cov_host::{NoMemory, Place};
use elab_checks::check;
use elab_scope::{FoundFault, NameAt, Scope, Tally, Written, names_faulty};
use flat_design::{ElabKind, Entry, SignalEntry};
use std::alloc::Global;
use verilog_tree::{Expr, Named};

/// Reports what is found where a net is declared with a value in an item at this place: the net is assigned it, by the
/// process with this number.
pub fn check_net<'a>(
    alloc: Global,
    scope: &Scope,
    process: u32,
    place: Place,
    name: &'a Named,
    value: &'a Expr,
    tally: &mut Tally<'a>,
) -> Result<(), NoMemory>
    ensures { OnOk result (tally.new ≡ after_all tally.old (spec.continuous 0 (binding_of scope.now) 0 process place (identifier name.now.place name.now.name) (expr_view value.now) 0).met) }
{
    tally.process(place);
    let net = driven_net(scope, name, tally);
    let sound = check(scope, value, tally);
    let Some(net) = net else {
        return Ok(());
    };
    let label = NameAt::of(name);
    tally.writing(whole(label, net, process))?;
    check_value(alloc, scope, whole(label, net, 0), value, sound, tally)
}

/// The net that a name means, if an assignment may drive it. Reports the fault of a name that means no such net.
fn driven_net<'a>(scope: &Scope, name: &'a Named, tally: &mut Tally<'a>) -> Option<SignalEntry>
    ensures met { tally.new ≡ after_faults tally.old (target_faults (binding_of scope.now) Continuous (identifier name.now.place name.now.name)) }
    ensures net { result ≡ spec_driven_net (look_up (binding_of scope.now) name.now.name) }
    ensures within { IfSome result (λ net. IsVectorRange net.range) }
{
    let kind = match scope.get(name.name.as_slice()) {
        None => ElabKind::Undeclared,
        Some(Entry::Signal(signal)) => {
            if signal.net && !signal.input {
                return Some(*signal);
            }
            ElabKind::WrongTarget
        }
        Some(Entry::Faulty) => return None,
        Some(Entry::Instance | Entry::NoConstant) => ElabKind::WrongUse,
        Some(Entry::Constant(_) | Entry::Turn(_) | Entry::LoopVariable | Entry::Memory(_)) =>
            ElabKind::WrongTarget,
    };
    tally.fault(FoundFault::at(kind, NameAt::of(name)));
    None
}

/// Reports the reads in a value of bits of the net that is assigned it, where it is known whether the value has a
/// fault.
fn check_value<'a>(
    alloc: Global,
    scope: &Scope,
    driven: Written,
    value: &'a Expr,
    sound: bool,
    tally: &mut Tally<'a>,
) -> Result<(), NoMemory>
    requires within { IsWithin driven }
    requires sound { sound ≡ none (faults (binding_of scope.now) (expr_view value.now)) }
    ensures { OnOk result (tally.new ≡ after_faults tally.old (value_reads (binding_of scope.now) (writing_view driven.entry) (expr_view value.now))) }
{
    if !sound || names_faulty(scope, value) {
        return Ok(());
    }
    check_reads(alloc, scope, &[driven], value, tally)
}
