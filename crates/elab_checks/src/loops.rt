//! The turns of loops, and the faults of their headers (IEEE 1364-2001 clause 9.6).

ghost use Rattle.std.specs.Prelude.{◌≡◌, ◌&&◌, ◌*◌, ◌∷◌, ◌++◌, [], not, IfOk, IfSome, OnOk};
ghost use Rattle.elab_const.specs.Calls.{told};
ghost use Rattle.elab_const.specs.Loops.{turns_answer};
ghost use Rattle.elab_scope.specs.Entries.{IsEntry};
ghost use Rattle.elab_scope.specs.Tally.{after_all, after_faults};
ghost use Rattle.elab_checks.specs.Turns.{outer_faults, inner_faults, outer_names_faulty, inner_names_faulty, is_sound, restored};
ghost use Rattle.elab_scope.specs.View.{fault_view};
ghost use Rattle.flat_design.specs.Bodies.{met_faults, met_text};
ghost use Rattle.flat_design.specs.Fault.{answer_faults, fault_if, none};
ghost use Rattle.flat_design.specs.Identifiers.{base_name as spec_base_name};
ghost use Rattle.flat_design.specs.Loops as spec;
ghost use Rattle.flat_design.specs.Scope.{binding_of, names};
ghost use Rattle.tree_sizes.specs.Sizes.{header_size};
ghost use Rattle.verilog_tree.specs.View.{expr_view, loop_view};

use crate::expressions::check;
use crate::targets::is_name;
use crate::undeclared::check_declared;
use cov_host::{Name, NoMemory, Place};
use elab_const::{ConstFault, ConstKind, Turns};
use elab_scope::{FoundFault, Scope, Tally, base_name, names_faulty, names_no_constant};
use flat_design::{ElabKind, Entry};
use four_state::{Bit, Four};
use std::alloc::Global;
use verilog_tree::{Expr, For};

/// The values of a loop's variable, one for each turn. A loop whose header has a fault has no turns. The text of the header is
/// counted as often as it is gone through.
pub fn turns<'a>(
    alloc: Global,
    scope: &mut Scope,
    header: &'a For,
    tally: &mut Tally<'a>,
) -> Result<Turns, NoMemory>
    ensures values { IfOk result (λ values. values ≡ spec.turns (binding_of scope.old) (loop_view header.now).0) }
    ensures met { OnOk result (tally.new ≡ after_all tally.old (met_faults (spec.turn_faults (binding_of scope.old) (loop_view header.now).0) ++ met_text (loop_view header.now).0.place (spec.turns_size (binding_of scope.old) (loop_view header.now).0) ∷ [])) }
    ensures kept { OnOk result (binding_of scope.new ≡ binding_of scope.old) }
{
    if !check_header(alloc, scope, header, tally)? {
        tally.turns(header, 1);
        return Ok(Turns::new(alloc));
    }
    found_turns(alloc, scope, header, tally)
}

/// The values of a loop's variable, one for each turn. What is wrong with the header is reported elsewhere.
pub fn turn_values(alloc: Global, scope: &mut Scope, header: &For) -> Result<Turns, NoMemory>
    ensures values { IfOk result (λ values. values ≡ spec.turns (binding_of scope.old) (loop_view header.now).0) }
    ensures kept { OnOk result (binding_of scope.new ≡ binding_of scope.old) }
{
    turns(alloc, scope, header, &mut Tally::new(alloc))
}

/// Reports the faults of the names of a header, and says whether it has no fault and names nothing that has one.
fn check_header<'a>(
    alloc: Global,
    scope: &mut Scope,
    header: &'a For,
    tally: &mut Tally<'a>,
) -> Result<bool, NoMemory>
    ensures met { OnOk result (tally.new ≡ after_faults tally.old (spec.header_faults (binding_of scope.old) (loop_view header.now).0)) }
    ensures sound { IfOk result (λ sound. sound ≡ is_sound (binding_of scope.old) (loop_view header.now).0) }
    ensures kept { OnOk result (binding_of scope.new ≡ binding_of scope.old) }
{
    let outside = check_outside(scope, header, tally);
    let variable = variable_name(alloc, header)?;
    let before = scope.get(variable.as_slice()).copied();
    scope.insert(&variable, Entry::Turn(Four::fill(1, true, Bit::X)))?;
    let inside = check_inside(scope, header, tally);
    put_back(scope, &variable, before)?;
    Ok(outside & inside)
}

/// The turns of a loop whose names have no fault, or the fault of a constant. The text of the header is counted for each turn.
fn found_turns<'a>(
    alloc: Global,
    scope: &Scope,
    header: &'a For,
    tally: &mut Tally<'a>,
) -> Result<Turns, NoMemory>
    ensures values { IfOk result (λ values. values ≡ spec.values_of (told (turns_answer (names (binding_of scope.now)) (loop_view header.now).0))) }
    ensures met { OnOk result (tally.new ≡ after_all tally.old (met_faults (answer_faults (told (turns_answer (names (binding_of scope.now)) (loop_view header.now).0))) ++ met_text (loop_view header.now).0.place (header_size (loop_view header.now).0 * spec.times (told (turns_answer (names (binding_of scope.now)) (loop_view header.now).0))) ∷ [])) }
{
    match elab_const::turns(alloc, header, scope.values()) {
        Ok(values) => {
            tally.turns(header, 1 + values.as_slice().len());
            Ok(values)
        }
        Err(ConstFault::NoMemory) => Err(NoMemory),
        Err(ConstFault::At { kind, place }) => {
            tally.fault(FoundFault::Constant(kind, place));
            tally.turns(header, 1_025);
            Ok(Turns::new(alloc))
        }
    }
}

/// The name of a loop's variable.
pub fn variable_name(alloc: Global, header: &For) -> Result<Name, NoMemory>
    ensures { IfOk result (λ name. name ≡ (spec_base_name (loop_view header.now).0.name).name) }
{
    let base = base_name(&header.name);
    Ok(Name::from_vec(Vec::from_slice(alloc, base.name)?))
}

/// Gives a name the meaning that it had before.
pub fn put_back(scope: &mut Scope, name: &Name, before: Option<Entry>) -> Result<(), NoMemory>
    requires { IfSome before IsEntry }
    ensures { OnOk result (binding_of scope.new ≡ restored name.now before (binding_of scope.old)) }
{
    match before {
        Some(entry) => scope.insert(name, entry),
        None => {
            scope.remove(name);
            Ok(())
        }
    }
}

/// Reports the faults of the names of a header outside its turns, and says whether it has no fault and names nothing
/// that has one.
fn check_outside<'a>(scope: &Scope, header: &'a For, tally: &mut Tally<'a>) -> bool
    ensures met { tally.new ≡ after_faults tally.old (outer_faults (binding_of scope.now) (loop_view header.now).0) }
    ensures sound { result ≡ (none (outer_faults (binding_of scope.now) (loop_view header.now).0) && not (outer_names_faulty (binding_of scope.now) (loop_view header.now).0)) }
{
    let over = check_over(scope, header, tally);
    let first = check_named(scope, header.place, &header.first, tally);
    let faulty = names_faulty(scope, &header.name) | names_faulty(scope, &header.first);
    over & first & !faulty
}

/// Reports the faults of the names of a header in a turn, and says whether it has no fault and names nothing that has
/// one.
fn check_inside<'a>(scope: &Scope, header: &'a For, tally: &mut Tally<'a>) -> bool
    ensures met { tally.new ≡ after_faults tally.old (inner_faults (binding_of scope.now) (loop_view header.now).0) }
    ensures sound { result ≡ (none (inner_faults (binding_of scope.now) (loop_view header.now).0) && not (inner_names_faulty (binding_of scope.now) (loop_view header.now).0)) }
{
    let test = check_named(scope, header.place, &header.test, tally);
    let step = check_named(scope, header.place, &header.step, tally);
    let faulty = names_faulty(scope, &header.test) | names_faulty(scope, &header.step);
    test & step & !faulty
}

/// Reports the faults of what a header loops over, and says whether it has no fault.
fn check_over<'a>(scope: &Scope, header: &'a For, tally: &mut Tally<'a>) -> bool
    ensures met { tally.new ≡ after_faults tally.old (spec.over_faults (binding_of scope.now) (loop_view header.now).0) }
    ensures sound { result ≡ none (spec.over_faults (binding_of scope.now) (loop_view header.now).0) }
{
    let variable = base_name(&header.name);
    if !is_over_one_name(header) {
        tally.fault(FoundFault::Constant(ConstKind::LoopNotConstant, header.place));
        return false;
    }
    let fault = match scope.get(variable.name) {
        None => FoundFault::at(ElabKind::Undeclared, variable),
        Some(Entry::LoopVariable | Entry::Faulty) => return true,
        Some(Entry::Turn(_)) => FoundFault::at(ElabKind::WrongUse, variable),
        Some(_) => FoundFault::Constant(ConstKind::LoopNotConstant, header.place),
    };
    tally.fault(fault);
    false
}

/// Whether a header uses one plain name in both places.
fn is_over_one_name(header: &For) -> bool
    ensures { result ≡ spec.is_over_one_name (loop_view header.now).0 }
{
    is_name(&header.name)
        && is_name(&header.target)
        && base_name(&header.name).name == base_name(&header.target).name
}

/// Reports the faults of an expression of the header at this place, which may name constants alone, and says whether it
/// has no fault.
fn check_named<'a>(scope: &Scope, place: Place, expr: &'a Expr, tally: &mut Tally<'a>) -> bool
    ensures met { tally.new ≡ after_faults tally.old (spec.named_faults (binding_of scope.now) place (expr_view expr.now)) }
    ensures sound { result ≡ none (spec.named_faults (binding_of scope.now) place (expr_view expr.now)) }
{
    let declared = check_declared(scope, expr, tally);
    let other = names_no_constant(scope, expr);
    let fault = FoundFault::Constant(ConstKind::LoopNotConstant, place);
    let constant = tell_if(other, fault, tally);
    let sound = check(scope, expr, tally);
    declared & constant & sound
}

/// A fault, where the test holds; whether it does not.
pub(crate) fn tell_if<'a>(test: bool, fault: FoundFault<'a>, tally: &mut Tally<'a>) -> bool
    ensures met { tally.new ≡ after_faults tally.old (fault_if test (fault_view fault.entry)) }
    ensures sound { result ≡ none (fault_if test (fault_view fault.entry)) }
{
    if test {
        tally.fault(fault);
    }
    !test
}
