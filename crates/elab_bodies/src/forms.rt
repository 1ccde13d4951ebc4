//! Flat statements of each form.

ghost use Rattle.std.specs.Prelude.{◌≡◌, IfOk, map};
ghost use Rattle.design_model.specs.Tree as t;
ghost use Rattle.design_model.specs.View.{arms_of, stmt_view, stmts_of, target_view, term_view, terms_of};
ghost use Rattle.elab_bodies.specs.View.{arm_view, other_view};

use cov_host::{NoMemory, Place};
use design_model::{CaseArm, Stmt, StmtForm, Target, Term};
use four_state::CaseKind;
use std::alloc::Global;

/// A statement of this form.
fn made(alloc: Global, place: Place, form: StmtForm) -> Result<Stmt, NoMemory>
    ensures place { IfOk result (λ s. s.place ≡ place) }
    ensures form { IfOk result (λ s. s.form.value ≡ form) }
{
    Ok(Stmt {
        place,
        form: Box::new(alloc, form)?,
    })
}

/// `begin parts end`.
pub(crate) fn block(alloc: Global, place: Place, parts: Vec<Stmt>) -> Result<Stmt, NoMemory>
    ensures { IfOk result (λ s. stmt_view s ≡ t.block place (stmts_of (map stmt_view parts.items))) }
{
    made(alloc, place, StmtForm::Block(parts))
}

/// `if (test) yes`, with `else no` where there is one, and its number as a line point.
pub(crate) fn branch(
    alloc: Global,
    place: Place,
    line: u32,
    test: Term,
    yes: Stmt,
    no: Option<Stmt>,
) -> Result<Stmt, NoMemory>
    ensures { IfOk result (λ s. stmt_view s ≡ t.branch place line (term_view test) (stmt_view yes) (other_view no)) }
{
    let form = StmtForm::If {
        line,
        test,
        yes,
        no,
    };
    made(alloc, place, form)
}

/// A `case`, `casez` or `casex`, and its number as a line point.
pub(crate) fn select(
    alloc: Global,
    place: Place,
    line: u32,
    kind: CaseKind,
    on: Term,
    arms: Vec<CaseArm>,
) -> Result<Stmt, NoMemory>
    ensures { IfOk result (λ s. stmt_view s ≡ t.select place line kind (term_view on) (arms_of (map arm_view arms.items))) }
{
    let form = StmtForm::Case {
        line,
        kind,
        on,
        arms,
    };
    made(alloc, place, form)
}

/// An arm of a case.
pub(crate) fn arm(labels: Vec<Term>, body: Stmt) -> CaseArm
    ensures { arm_view result ≡ (terms_of (map term_view labels.items), stmt_view body) }
{
    CaseArm { labels, body }
}

/// A `for` with its turns, and its number as a line point.
pub(crate) fn unrolled(
    alloc: Global,
    place: Place,
    line: u32,
    turns: Vec<Stmt>,
) -> Result<Stmt, NoMemory>
    ensures { IfOk result (λ s. stmt_view s ≡ t.turns place line (stmts_of (map stmt_view turns.items))) }
{
    made(alloc, place, StmtForm::Turns { line, turns })
}

/// An assignment, and its number as a line point.
pub(crate) fn set(
    alloc: Global,
    place: Place,
    line: u32,
    blocking: bool,
    target: Target,
    value: Term,
) -> Result<Stmt, NoMemory>
    ensures { IfOk result (λ s. stmt_view s ≡ t.set place line blocking (target_view target) (term_view value)) }
{
    let form = StmtForm::Set {
        line,
        blocking,
        target,
        value,
    };
    made(alloc, place, form)
}

/// Nothing.
pub(crate) fn empty(alloc: Global, place: Place) -> Result<Stmt, NoMemory>
    ensures { IfOk result (λ s. stmt_view s ≡ t.empty place) }
{
    made(alloc, place, StmtForm::Empty)
}
