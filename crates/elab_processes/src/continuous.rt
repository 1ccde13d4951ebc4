//! Continuous assignments (IEEE 1364-2001 clause 6.1).

ghost use Rattle.std.specs.Prelude.{◌≡◌, ◌++◌, OnOk};
ghost use Rattle.elab_scope.specs.Tally.{after_all, after_faults};
ghost use Rattle.flat_design.specs.Expressions.{faults};
ghost use Rattle.flat_design.specs.Fault.{none};
ghost use Rattle.flat_design.specs.Processes as spec;
ghost use Rattle.flat_design.specs.Scope.{binding_of};
ghost use Rattle.flat_design.specs.Targets.{target_faults};
ghost use Rattle.flat_design.specs.declared.entry.Mode.TheVariants.{Continuous};
ghost use Rattle.verilog_tree.specs.View.{expr_view};

use crate::reads::check_reads;
use cov_host::{NoMemory, Place};
use elab_checks::{Writer, check, check_target, push_writings, target_writings};
use elab_scope::{Scope, Tally, names_faulty};
use flat_design::Mode;
use std::alloc::Global;
use verilog_tree::Expr;

/// Reports what is found in `assign target = value`, whose item is at this place and whose process has this number.
pub fn check_continuous<'a>(
    alloc: Global,
    scope: &Scope,
    process: u32,
    place: Place,
    target: &'a Expr,
    value: &'a Expr,
    tally: &mut Tally<'a>,
) -> Result<(), NoMemory>
    ensures { OnOk result (tally.new ≡ after_all tally.old (spec.continuous 0 (binding_of scope.now) 0 process place (expr_view target.now) (expr_view value.now) 0).met) }
{
    tally.process(place);
    let sound = check_target(scope, Mode::Continuous, target, tally);
    let known = check(scope, value, tally);
    let writer = Writer {
        blocking: true,
        continuous: true,
        process,
    };
    push_writings(alloc, scope, Mode::Continuous, writer, target, sound, tally)?;
    check_self_assign(alloc, scope, target, value, sound & known, tally)
}

/// Reports the bits that an assignment both reads and drives, where it is known whether it has a fault.
fn check_self_assign<'a>(
    alloc: Global,
    scope: &Scope,
    target: &'a Expr,
    value: &'a Expr,
    sound: bool,
    tally: &mut Tally<'a>,
) -> Result<(), NoMemory>
    requires sound { sound ≡ none (target_faults (binding_of scope.now) Continuous (expr_view target.now) ++ faults (binding_of scope.now) (expr_view value.now)) }
    ensures { OnOk result (tally.new ≡ after_faults tally.old (spec.self_faults (binding_of scope.now) (expr_view target.now) (expr_view value.now))) }
{
    if !sound || names_faulty(scope, target) || names_faulty(scope, value) {
        return Ok(());
    }
    let writer = Writer {
        blocking: true,
        continuous: true,
        process: 0,
    };
    let driven = target_writings(alloc, scope, writer, target)?;
    check_reads(alloc, scope, &driven, value, tally)
}
