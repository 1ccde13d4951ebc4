ghost use Rattle.std.specs.Prelude.{◌≡◌, IfOk};
ghost use Rattle.std.specs.Option.{option_copied};
ghost use Rattle.verilog_tree.specs.View.{expr_view, loop_view};
ghost use Rattle.elab_const.specs.Calls.{told, Gives};
ghost use Rattle.elab_const.specs.Loops as spec;
ghost use Rattle.elab_const.specs.Faults.{shape_answer, constant_answer};
ghost use Rattle.elab_const.specs.Meaning.{IsShape};
ghost use Rattle.elab_const.specs.Scope.{look_up};

use crate::constancy::is_constant;
use crate::evaluate::{alone, measure};
use crate::fault::{Fault, tell};
use crate::names::Names;
use crate::turn::{Loop, Turns, integer_value};
use crate::{ConstFault, ConstKind, Scope, Shape};
use cov_host::Name;
use four_state::Four;
use std::alloc::Global;
use verilog_tree::{Expr, ExprForm, For};

/// The width and sign of an expression alone (IEEE 1364-2001, 4.4 and 4.5), or the first fault in the
/// text. A name that the scope lacks is NotConstant at the name. It takes no memory.
pub fn shape(expr: &Expr, scope: &Scope) -> Result<Shape, ConstFault>
    ensures answer { result ≡ told (shape_answer (look_up scope.now) (expr_view expr.now)) }
    ensures within { IfOk result IsShape }
{
    tell(measure(&Names::of(scope), expr))
}

/// The value of an expression that must be constant, or the first fault in the text.
pub fn constant(_alloc: Global, expr: &Expr, scope: &Scope) -> Result<Four, ConstFault>
    ensures { result ≡ told (constant_answer (look_up scope.now) (expr_view expr.now)) }
{
    tell(constant_in(&Names::of(scope), expr))
}

/// The value of an expression that must be constant, over these names, or the first fault.
fn constant_in(names: &Names, expr: &Expr) -> Result<Four, Fault>
    ensures { result ≡ constant_answer (look_up names.now) (expr_view expr.now) }
{
    if !is_constant(names, expr) {
        return Err(Fault::at(ConstKind::NotConstant, expr.place));
    }
    alone(names, expr)
}

/// The values of the variable of a loop in order, at most 1,024, or the first fault in the text.
pub fn turns(alloc: Global, header: &For, scope: &Scope) -> Result<Turns, ConstFault>
    ensures { Gives result (spec.turns_answer (look_up scope.now) (loop_view header.now).0) }
{
    let Some(variable) = variable_of(&header.name, &header.target) else {
        return Err(ConstFault::of(Fault::at(ConstKind::LoopNotConstant, header.place)));
    };
    let over = Loop {
        scope,
        place: header.place,
        variable,
        test: &header.test,
        step: &header.step,
    };
    if !over.is_closed(&header.first) {
        return Err(ConstFault::of(Fault::at(ConstKind::LoopNotConstant, header.place)));
    }
    match integer_value(&Names::of(scope), &header.first) {
        Ok(first) => over.turns_from(alloc, first),
        Err(fault) => Err(ConstFault::of(fault)),
    }
}

/// The variable of a header: the plain name that is assigned in both places.
fn variable_of<'a>(name: &'a Expr, target: &Expr) -> Option<&'a Name>
    ensures { option_copied result ≡ spec.variable_of (expr_view name.now) (expr_view target.now) }
{
    match (&*name.form, &*target.form) {
        (ExprForm::Name(name), ExprForm::Name(target)) if name.as_slice() == target.as_slice() => {
            Some(name)
        }
        _ => None,
    }
}
