//! What is wrong with expressions: their names, selects, constants and widths.

ghost use Rattle.std.specs.Prelude.{◌≡◌, ◌&&◌, not, if◌then◌else◌, []};
ghost use Rattle.std.specs.Option.{option_copied};
ghost use Rattle.elab_const.specs.Meaning.{parts_of};
ghost use Rattle.elab_const.specs.declared.fault.ConstKind.TheVariants.{NotConstant};
ghost use Rattle.elab_scope.specs.Tally.{after_faults};
ghost use Rattle.elab_scope.specs.View.{name_view};
ghost use Rattle.flat_design.specs.Expressions as spec;
ghost use Rattle.flat_design.specs.Expressions.{faults, all_faults};
ghost use Rattle.flat_design.specs.Fault.{fault_if, none, of_constant};
ghost use Rattle.flat_design.specs.Scope.{binding_of, names, names_constants, names_faulty};
ghost use Rattle.verilog_tree.specs.Tree.{exprs_of, bit_select, part_select, indexed_part, concatenation, place_of};
ghost use Rattle.verilog_tree.specs.View.{expr_view, exprs_view};

use crate::indexes::{check_bounds, check_index, check_slid};
use crate::selected::{Selected, memory_named, selection};
use crate::sizes::{check_bound_number, check_copies, check_known, check_size, check_width_number};
use crate::undeclared::check_declared;
use crate::values::{number, one_names_faulty, total_width};
use cov_host::Place;
use elab_const::ConstKind;
use elab_scope::{FoundFault, NameAt, Scope, Tally, base_name, names_constants, names_no_constant};
use flat_design::{ElabKind, Entry};
use four_state::Index;
use verilog_tree::{Expr, ExprForm};

/// Reports the faults of an expression (IEEE 1364-2001 clause 4), and says whether it has no fault.
#[cycle(check)]
pub fn check<'a>(scope: &Scope, expr: &'a Expr, tally: &mut Tally<'a>) -> bool
    ensures met { tally.new ≡ after_faults tally.old (faults (binding_of scope.now) (expr_view expr.now)) }
    ensures sound { result ≡ none (faults (binding_of scope.now) (expr_view expr.now)) }
{
    match &*expr.form {
        ExprForm::Number(_) => true,
        ExprForm::Name(name) => {
            let name = NameAt {
                name: name.as_slice(),
                place: expr.place,
            };
            check_use(scope.get(name.name), name, tally)
        }
        ExprForm::Bit { of, index } => check_bit(scope, of, index, tally),
        ExprForm::Part {
            of,
            high,
            low,
            bracket,
        } => check_part(scope, of, high, low, *bracket, tally),
        ExprForm::Slide {
            of,
            base,
            width,
            up,
            bracket,
        } => check_slide(scope, of, base, width, *up, *bracket, tally),
        ExprForm::Binary(_, a, b) => check(scope, a, tally) & check(scope, b, tally),
        ExprForm::Choice { test, yes, no } => {
            check(scope, test, tally) & check(scope, yes, tally) & check(scope, no, tally)
        }
        ExprForm::Concat(parts) => {
            let known = check_all(scope, parts, tally);
            known & check_joined(scope, expr.place, parts, known, tally)
        }
        ExprForm::Repeat(count, parts) => {
            let known = check_all(scope, parts, tally);
            let sound = check_number(scope, count, tally);
            known & sound & check_count(scope, expr.place, count, parts, sound, known, tally)
        }
        ExprForm::Unary(_, a) | ExprForm::Sign(_, a) | ExprForm::Paren(a) => check(scope, a, tally),
    }
}

/// Reports the faults of all expressions, and says whether none of them has a fault.
#[cycle(check)]
pub fn check_all<'a>(scope: &Scope, exprs: &'a [Expr], tally: &mut Tally<'a>) -> bool
    ensures met { tally.new ≡ after_faults tally.old (all_faults (binding_of scope.now) (exprs_of (exprs_view exprs.now))) }
    ensures sound { result ≡ none (all_faults (binding_of scope.now) (exprs_of (exprs_view exprs.now))) }
{
    let mut sound = true;
    for expr in exprs {
        sound &= check(scope, expr, tally);
    }
    sound
}

/// Of `of[index]`: a bit, or a word of a memory (4.2.1 and 4.2.2).
#[cycle(check)]
fn check_bit<'a>(scope: &Scope, of: &'a Expr, index: &'a Expr, tally: &mut Tally<'a>) -> bool
    ensures met { tally.new ≡ after_faults tally.old (faults (binding_of scope.now) (bit_select (place_of (expr_view of.now)) (expr_view of.now) (expr_view index.now))) }
    ensures sound { result ≡ none (faults (binding_of scope.now) (bit_select (place_of (expr_view of.now)) (expr_view of.now) (expr_view index.now))) }
{
    if let Some(memory) = memory_named(scope, of) {
        let known = check(scope, index, tally);
        let words = Selected::Bits(memory.words, base_name(of));
        return known & check_index(scope, words, index, known, tally);
    }
    let bits = selection(scope, of);
    let before = check(scope, of, tally) & bits.check(tally);
    let known = check(scope, index, tally);
    before & known & check_index(scope, bits, index, known, tally)
}

/// Of `of[high:low]` with this bracket (4.2.1).
#[cycle(check)]
fn check_part<'a>(
    scope: &Scope,
    of: &'a Expr,
    high: &'a Expr,
    low: &'a Expr,
    bracket: Place,
    tally: &mut Tally<'a>,
) -> bool
    ensures met { tally.new ≡ after_faults tally.old (faults (binding_of scope.now) (part_select bracket (expr_view of.now) (expr_view high.now) (expr_view low.now) bracket)) }
    ensures sound { result ≡ none (faults (binding_of scope.now) (part_select bracket (expr_view of.now) (expr_view high.now) (expr_view low.now) bracket)) }
{
    let bits = selection(scope, of);
    let before = check(scope, of, tally) & bits.check(tally);
    let known = check_bound(scope, bracket, high, tally) & check_bound(scope, bracket, low, tally);
    before & known & check_bounds(scope, bits, bracket, high, low, known, tally)
}

/// Of `of[base +: width]`, or where `up` is false of `of[base -: width]`, with this bracket (4.2.1).
#[cycle(check)]
fn check_slide<'a>(
    scope: &Scope,
    of: &'a Expr,
    base: &'a Expr,
    width: &'a Expr,
    up: bool,
    bracket: Place,
    tally: &mut Tally<'a>,
) -> bool
    ensures met { tally.new ≡ after_faults tally.old (faults (binding_of scope.now) (indexed_part bracket (expr_view of.now) (expr_view base.now) (expr_view width.now) up bracket)) }
    ensures sound { result ≡ none (faults (binding_of scope.now) (indexed_part bracket (expr_view of.now) (expr_view base.now) (expr_view width.now) up bracket)) }
{
    let bits = selection(scope, of);
    let before = check(scope, of, tally) & bits.check(tally);
    let known = check(scope, base, tally) & check_width(scope, bracket, width, tally);
    if !known || !names_constants(scope, width) {
        return before & known;
    }
    before & check_slid(scope, bits, base, width, up, tally)
}

/// Reports the faults of an expression that must be constant (4.1), and says whether it has no fault.
#[cycle(check)]
pub fn check_constant<'a>(scope: &Scope, expr: &'a Expr, tally: &mut Tally<'a>) -> bool
    ensures met { tally.new ≡ after_faults tally.old (spec.constant_faults (binding_of scope.now) (expr_view expr.now) (faults (binding_of scope.now) (expr_view expr.now))) }
    ensures sound { result ≡ none (spec.constant_faults (binding_of scope.now) (expr_view expr.now) (faults (binding_of scope.now) (expr_view expr.now))) }
{
    let known = check_declared(scope, expr, tally) & check_constancy(scope, expr, tally);
    known & check(scope, expr, tally)
}

/// Reports the faults of an expression that must be a constant number, and says whether it has no fault.
#[cycle(check)]
pub(crate) fn check_number<'a>(scope: &Scope, expr: &'a Expr, tally: &mut Tally<'a>) -> bool
    ensures met { tally.new ≡ after_faults tally.old (spec.number_faults (binding_of scope.now) (expr_view expr.now) (faults (binding_of scope.now) (expr_view expr.now))) }
    ensures sound { result ≡ none (spec.number_faults (binding_of scope.now) (expr_view expr.now) (faults (binding_of scope.now) (expr_view expr.now))) }
{
    let sound = check_constant(scope, expr, tally);
    if !sound || !names_constants(scope, expr) {
        return sound;
    }
    check_known(expr.place, number(scope, expr), tally)
}

/// Reports the faults of a bound of a range or part with this bracket, and says whether it has no fault.
#[cycle(check)]
pub fn check_bound<'a>(scope: &Scope, bracket: Place, expr: &'a Expr, tally: &mut Tally<'a>) -> bool
    ensures met { tally.new ≡ after_faults tally.old (spec.bound_faults (binding_of scope.now) bracket (expr_view expr.now) (faults (binding_of scope.now) (expr_view expr.now))) }
    ensures sound { result ≡ none (spec.bound_faults (binding_of scope.now) bracket (expr_view expr.now) (faults (binding_of scope.now) (expr_view expr.now))) }
{
    let sound = check_number(scope, expr, tally);
    if !sound || !names_constants(scope, expr) {
        return sound;
    }
    check_bound_number(bracket, number(scope, expr), tally)
}

/// Reports the faults of the width of an indexed part with this bracket, and says whether it has no fault.
#[cycle(check)]
fn check_width<'a>(scope: &Scope, bracket: Place, expr: &'a Expr, tally: &mut Tally<'a>) -> bool
    ensures met { tally.new ≡ after_faults tally.old (spec.width_faults (binding_of scope.now) bracket (expr_view expr.now) (faults (binding_of scope.now) (expr_view expr.now))) }
    ensures sound { result ≡ none (spec.width_faults (binding_of scope.now) bracket (expr_view expr.now) (faults (binding_of scope.now) (expr_view expr.now))) }
{
    let sound = check_number(scope, expr, tally);
    if !sound || !names_constants(scope, expr) {
        return sound;
    }
    check_width_number(bracket, number(scope, expr), tally)
}

/// Reports a name that is read as a value and has no value, and says whether it has one.
fn check_use<'a>(entry: Option<&Entry>, name: NameAt<'a>, tally: &mut Tally<'a>) -> bool
    ensures met { tally.new ≡ after_faults tally.old (spec.use_faults (option_copied entry.entry) (name_view name.entry)) }
    ensures sound { result ≡ none (spec.use_faults (option_copied entry.entry) (name_view name.entry)) }
{
    let kind = match entry {
        None => ElabKind::Undeclared,
        Some(Entry::Constant(_) | Entry::Turn(_) | Entry::Signal(_) | Entry::Faulty) => return true,
        Some(_) => ElabKind::WrongUse,
    };
    tally.fault(FoundFault::at(kind, name));
    false
}

/// Reports a name that is declared, and not as a constant, and says whether there is no such name.
fn check_constancy(scope: &Scope, expr: &Expr, tally: &mut Tally) -> bool
    ensures met { tally.new ≡ after_faults tally.old (fault_if (spec.names_no_constant (binding_of scope.now) (expr_view expr.now)) (of_constant NotConstant (place_of (expr_view expr.now)))) }
    ensures sound { result ≡ none (fault_if (spec.names_no_constant (binding_of scope.now) (expr_view expr.now)) (of_constant NotConstant (place_of (expr_view expr.now)))) }
{
    if names_no_constant(scope, expr) {
        tally.fault(FoundFault::Constant(ConstKind::NotConstant, expr.place));
        return false;
    }
    true
}

/// Reports more than 128 bits of these parts side by side, where it is known whether they have a fault. Whether there
/// are no more.
fn check_joined(scope: &Scope, place: Place, parts: &[Expr], known: bool, tally: &mut Tally) -> bool
    requires { known ≡ none (all_faults (binding_of scope.now) (exprs_of (exprs_view parts.now))) }
    ensures met { tally.new ≡ after_faults tally.old (spec.joined_faults (none (all_faults (binding_of scope.now) (exprs_of (exprs_view parts.now))) && not (names_faulty (binding_of scope.now) (concatenation place (exprs_of (exprs_view parts.now))))) (parts_of (names (binding_of scope.now)) (exprs_of (exprs_view parts.now))).width place) }
    ensures sound { result ≡ none (spec.joined_faults (none (all_faults (binding_of scope.now) (exprs_of (exprs_view parts.now))) && not (names_faulty (binding_of scope.now) (concatenation place (exprs_of (exprs_view parts.now))))) (parts_of (names (binding_of scope.now)) (exprs_of (exprs_view parts.now))).width place) }
{
    if !known || one_names_faulty(scope, parts) {
        return true;
    }
    check_size(total_width(scope, parts), place, tally)
}

/// Reports a count that is less than 1, or makes more than 128 bits of these parts, where it is known whether it is a
/// number and whether the parts have a fault. Whether it is neither.
fn check_count(
    scope: &Scope,
    place: Place,
    count: &Expr,
    parts: &[Expr],
    sound: bool,
    known: bool,
    tally: &mut Tally,
) -> bool
    requires count { sound ≡ none (spec.number_faults (binding_of scope.now) (expr_view count.now) (faults (binding_of scope.now) (expr_view count.now))) }
    requires parts { known ≡ none (all_faults (binding_of scope.now) (exprs_of (exprs_view parts.now))) }
    ensures met { tally.new ≡ after_faults tally.old (if spec.is_sound_number (binding_of scope.now) (expr_view count.now) (faults (binding_of scope.now) (expr_view count.now)) then spec.count_faults (binding_of scope.now) place (expr_view count.now) (none (all_faults (binding_of scope.now) (exprs_of (exprs_view parts.now))) && not (names_faulty (binding_of scope.now) (concatenation place (exprs_of (exprs_view parts.now))))) (parts_of (names (binding_of scope.now)) (exprs_of (exprs_view parts.now))).width else []) }
    ensures sound { result ≡ none (if spec.is_sound_number (binding_of scope.now) (expr_view count.now) (faults (binding_of scope.now) (expr_view count.now)) then spec.count_faults (binding_of scope.now) place (expr_view count.now) (none (all_faults (binding_of scope.now) (exprs_of (exprs_view parts.now))) && not (names_faulty (binding_of scope.now) (concatenation place (exprs_of (exprs_view parts.now))))) (parts_of (names (binding_of scope.now)) (exprs_of (exprs_view parts.now))).width else []) }
{
    if !sound || !names_constants(scope, count) {
        return true;
    }
    let Index::At(times @ 1..) = number(scope, count) else {
        tally.fault(FoundFault::Constant(ConstKind::BadRange, place));
        return false;
    };
    if !known || one_names_faulty(scope, parts) {
        return true;
    }
    check_copies(times, total_width(scope, parts), place, tally)
}
