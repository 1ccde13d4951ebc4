ghost use Rattle.std.specs.Prelude.{◌≡◌, IfOk};
ghost use Rattle.verilog_tree.specs.Tree.{exprs_of, arms_of};
ghost use Rattle.verilog_tree.specs.View.{expr_view, exprs_view, arms_view};
ghost use Rattle.elab_const.specs.Calls.{told};
ghost use Rattle.elab_const.specs.Cases as spec;
ghost use Rattle.elab_const.specs.Meaning.{IsShape};
ghost use Rattle.elab_const.specs.Scope.{look_up};

use crate::evaluate::measure;
use crate::fault::{Fault, both, tell};
use crate::names::Names;
use crate::{ConstFault, Scope, Shape};
use verilog_tree::{Arm, Expr};

/// The width and sign by which the selector and the labels of a case are compared (IEEE 1364-2001, 9.5): the greatest
/// width of all, and a sign where all have one; or the first fault in the text. It takes no memory.
pub fn case_shape(on: &Expr, arms: &[Arm], scope: &Scope) -> Result<Shape, ConstFault>
    ensures answer { result ≡ told (spec.case_answer (look_up scope.now) (expr_view on.now) (arms_of (arms_view arms.now))) }
    ensures within { IfOk result IsShape }
{
    let names = Names::of(scope);
    let mut shape = measure(&names, on);
    for arm in arms {
        shape = with_labels(&names, shape, &arm.labels);
    }
    tell(shape)
}

/// A shape with those of labels.
fn with_labels(names: &Names, shape: Result<Shape, Fault>, labels: &[Expr]) -> Result<Shape, Fault>
    requires { IfOk shape IsShape }
    ensures answer { result ≡ spec.with_labels (look_up names.now) shape (exprs_of (exprs_view labels.now)) }
    ensures within { IfOk result IsShape }
{
    let mut shape = shape;
    for label in labels {
        shape = together(shape, measure(names, label));
    }
    shape
}

/// The greater width of both, and a sign where both have one; or the first fault of both in the text.
fn together(a: Result<Shape, Fault>, b: Result<Shape, Fault>) -> Result<Shape, Fault>
    requires a { IfOk a IsShape }
    requires b { IfOk b IsShape }
    ensures answer { result ≡ spec.together a b }
    ensures within { IfOk result IsShape }
{
    let (a, b) = both(a, b)?;
    Ok(a.common(b))
}
