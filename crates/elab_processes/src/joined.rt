//! Ports that are joined to expressions by assignments (IEEE 1364-2001 clause 12.3.9).

ghost use Rattle.std.specs.Prelude.{◌≡◌, OnOk};
ghost use Rattle.elab_scope.specs.Entries.{IsVectorRange};
ghost use Rattle.elab_scope.specs.Tally.{after_all};
ghost use Rattle.elab_scope.specs.View.{IsWithin, name_view, writing_view};
ghost use Rattle.flat_design.specs.Processes as spec;
ghost use Rattle.flat_design.specs.Scope.{binding_of};
ghost use Rattle.verilog_tree.specs.View.{expr_view};

use cov_host::{NoMemory, Place};
use elab_checks::{Writer, check, check_target, push_writings};
use elab_scope::{NameAt, Scope, Tally, Written, range_or, span};
use flat_design::{Mode, SignalEntry, Thing};
use std::alloc::Global;
use verilog_tree::Expr;

/// Reports what is found where the signal of an input port is assigned an expression, by the process with this number.
/// A fault of the connection is at its label.
pub fn check_joined_input<'a>(
    scope: &Scope,
    process: u32,
    place: Place,
    label: NameAt<'a>,
    signal: SignalEntry,
    value: &'a Expr,
    tally: &mut Tally<'a>,
) -> Result<(), NoMemory>
    requires { IsVectorRange signal.range }
    ensures { OnOk result (tally.new ≡ after_all tally.old (spec.joined_input 0 (binding_of scope.now) 0 process place (name_view label.entry) signal (expr_view value.now)).met) }
{
    tally.process(place);
    let _ = check(scope, value, tally);
    tally.writing(whole(label, signal, process))
}

/// Reports what is found where a target is assigned the signal of an output port, by the process with this number.
pub fn check_joined_output<'a>(
    alloc: Global,
    scope: &Scope,
    process: u32,
    place: Place,
    signal: SignalEntry,
    value: &'a Expr,
    tally: &mut Tally<'a>,
) -> Result<(), NoMemory>
    ensures { OnOk result (tally.new ≡ after_all tally.old (spec.joined_output 0 (binding_of scope.now) 0 process place signal (expr_view value.now)).met) }
{
    tally.process(place);
    let sound = check_target(scope, Mode::Continuous, value, tally);
    let writer = Writer {
        blocking: true,
        continuous: true,
        process,
    };
    push_writings(alloc, scope, Mode::Continuous, writer, value, sound, tally)
}

/// All bits of a signal, driven by the process with this number, at the place of the label.
pub(crate) fn whole<'a>(label: NameAt<'a>, signal: SignalEntry, process: u32) -> Written<'a>
    requires { IsVectorRange signal.range }
    ensures value { writing_view result ≡ spec.whole_writing process (name_view label.entry) signal }
    ensures within { IsWithin result }
{
    Written {
        name: label,
        thing: Thing::Signal(signal.number),
        low: 0,
        count: span(range_or(signal.range)),
        blocking: true,
        continuous: true,
        process,
    }
}
