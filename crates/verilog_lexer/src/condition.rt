ghost use Rattle.std.specs.Prelude.{◌≡◌, Ok, OnOk, IfErr, IfOk, Some};
ghost use Rattle.verilog_lexer.specs.Answer.{IsFault};
ghost use Rattle.verilog_lexer.specs.Conditions.{innermost, is_left_out, is_past_or_waiting, first_branch, next_branch, with_opened, with_next, named, going_on, after_test};
ghost use Rattle.verilog_lexer.specs.Defines.{no_macros};
ghost use Rattle.verilog_lexer.specs.Piece.{end_of_condition};
ghost use Rattle.verilog_lexer.specs.PieceView.{test_view};
ghost use Rattle.verilog_lexer.specs.MacrosView.{macros_view};

use crate::macros::Macros;
use crate::piece::Test;
use crate::{LexFault, LexKind};
use cov_host::Place;
use smallvec::SmallVec;

/// Whether the branch of a condition is read, may still come, or is past. In a part that is left out all
/// branches are past.
#[derive(Clone, Copy)]
pub(crate) enum Branch {
    Read,
    Waiting,
    Past,
}

/// An open condition: its branch here, and whether that is the last one.
#[derive(Clone, Copy)]
pub(crate) struct Condition {
    branch: Branch,
    ended: bool,
}

impl Default for Condition {
    fn default() -> Self {
        Condition {
            branch: Branch::Read,
            ended: false,
        }
    }
}

/// The open conditions of a file, the innermost one last.
pub(crate) type Conditions = SmallVec<Condition, 8>;

/// Whether a condition leaves the text out here.
pub(crate) fn is_left_out(conditions: &Conditions) -> bool
    ensures { result ≡ is_left_out conditions.now.items }
{
    match innermost(conditions) {
        Some(condition) => leaves_out(condition.branch),
        None => false,
    }
}

/// Obeys a directive of conditions at a place (IEEE 1364-2001 clause 19.4).
pub(crate) fn obey(
    conditions: &mut Conditions,
    macros: &Macros<'_>,
    test: Test<'_>,
    place: Place,
) -> Result<(), LexFault>
    ensures ok { OnOk result (after_test place (macros_view macros.now) (test_view test.entry) conditions.old.items ≡ Ok conditions.new.items) }
    ensures fault { IfErr result (IsFault (after_test place (macros_view macros.now) (test_view test.entry) conditions.old.items)) }
{
    match test {
        Test::IfDefined(name) => {
            named(name, place)?;
            open(conditions, macros.get(name).is_some())
        }
        Test::IfUndefined(name) => {
            named(name, place)?;
            open(conditions, macros.get(name).is_none())
        }
        Test::ElseIfDefined(name) => {
            let condition = going_on(conditions, place)?;
            named(name, place)?;
            go_on(conditions, condition, macros.get(name).is_some(), false)
        }
        Test::Otherwise => {
            let condition = going_on(conditions, place)?;
            go_on(conditions, condition, true, true)
        }
        Test::End => close(conditions, place),
    }
}

/// The innermost of the open conditions.
fn innermost(conditions: &Conditions) -> Option<Condition>
    ensures { result ≡ innermost conditions.now.items }
{
    conditions.as_slice().last().copied()
}

/// Whether the text of such a branch is left out.
fn leaves_out(branch: Branch) -> bool
    ensures { result ≡ is_past_or_waiting branch }
{
    match branch {
        Branch::Read => false,
        Branch::Waiting => true,
        Branch::Past => true,
    }
}

/// The branch that a condition begins with.
fn first_branch(left_out: bool, holds: bool) -> Branch
    ensures { result ≡ first_branch left_out holds }
{
    if left_out {
        Branch::Past
    } else if holds {
        Branch::Read
    } else {
        Branch::Waiting
    }
}

/// The branch that follows another one.
fn next_branch(branch: Branch, holds: bool) -> Branch
    ensures { result ≡ next_branch branch holds }
{
    match branch {
        Branch::Read => Branch::Past,
        Branch::Waiting => first_branch(false, holds),
        Branch::Past => Branch::Past,
    }
}

/// Opens a condition inside the others.
fn open(conditions: &mut Conditions, holds: bool) -> Result<(), LexFault>
    ensures ok { OnOk result (conditions.new.items ≡ with_opened conditions.old.items holds) }
    ensures fault { IfErr result (λ fault. fault ≡ LexFault.NoMemory) }
{
    let branch = first_branch(is_left_out(conditions), holds);
    conditions.push(Condition {
        branch,
        ended: false,
    })?;
    Ok(())
}

/// Goes on with the next branch of the innermost condition.
fn go_on(
    conditions: &mut Conditions,
    condition: Condition,
    holds: bool,
    ended: bool,
) -> Result<(), LexFault>
    ensures ok { OnOk result (conditions.new.items ≡ with_next conditions.old.items condition holds ended) }
    ensures fault { IfErr result (λ fault. fault ≡ LexFault.NoMemory) }
{
    let branch = next_branch(condition.branch, holds);
    let _ = conditions.pop();
    conditions.push(Condition { branch, ended })?;
    Ok(())
}

/// Closes the innermost condition.
fn close(conditions: &mut Conditions, place: Place) -> Result<(), LexFault>
    ensures ok { OnOk result (after_test place no_macros end_of_condition conditions.old.items ≡ Ok conditions.new.items) }
    ensures fault { IfErr result (IsFault (after_test place no_macros end_of_condition conditions.old.items)) }
{
    match conditions.pop() {
        Some(_) => Ok(()),
        None => Err(LexFault::at(LexKind::OpenCondition, place)),
    }
}

/// The innermost condition, where it can go on.
fn going_on(conditions: &Conditions, place: Place) -> Result<Condition, LexFault>
    ensures ok { IfOk result (λ condition. going_on place (innermost conditions.now.items) ≡ Ok condition) }
    ensures fault { IfErr result (IsFault (going_on place (innermost conditions.now.items))) }
{
    match innermost(conditions) {
        Some(condition) => unended(condition, place),
        None => Err(LexFault::at(LexKind::OpenCondition, place)),
    }
}

/// The condition, where its last branch has not begun.
fn unended(condition: Condition, place: Place) -> Result<Condition, LexFault>
    ensures ok { IfOk result (λ same. going_on place (Some condition) ≡ Ok same) }
    ensures fault { IfErr result (IsFault (going_on place (Some condition))) }
{
    if condition.ended {
        Err(LexFault::at(LexKind::OpenCondition, place))
    } else {
        Ok(condition)
    }
}

/// The name that a directive wants is there.
pub(crate) fn named(name: &[u8], place: Place) -> Result<(), LexFault>
    ensures ok { OnOk result (named place name.now ≡ Ok tt) }
    ensures fault { IfErr result (IsFault (named place name.now)) }
{
    if name.is_empty() {
        Err(LexFault::at(LexKind::UnknownDirective, place))
    } else {
        Ok(())
    }
}
