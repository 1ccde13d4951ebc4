ghost use Rattle.std.specs.Prelude.{◌≡◌};
ghost use Rattle.design_model.specs.Execution.{node_cases, operator_cases};
ghost use Rattle.design_model.specs.View.{term_view};

use design_model::{Form, NodeCase, Term};
use four_state::Binary;

/// The cases of a node of one operand, or of a condition.
static OWN_CASES: [NodeCase; 2] = [NodeCase::ValueFalse, NodeCase::ValueTrue];

/// The cases of an operator that one false operand decides.
static AND_CASES: [NodeCase; 3] = [
    NodeCase::LeftFalse,
    NodeCase::RightFalse,
    NodeCase::BothTrue,
];

/// The cases of an operator that one true operand decides.
static OR_CASES: [NodeCase; 3] = [NodeCase::LeftTrue, NodeCase::RightTrue, NodeCase::BothFalse];

/// The cases of any other operator with two operands.
static FOUR_CASES: [NodeCase; 4] = [
    NodeCase::BothFalse,
    NodeCase::FalseTrue,
    NodeCase::TrueFalse,
    NodeCase::BothTrue,
];

/// The cases that a node can have.
pub(crate) fn node_cases(term: &Term) -> &'static [NodeCase]
    ensures { result.now ≡ node_cases (term_view term.now) }
{
    match &*term.form {
        Form::Binary(op, _, _) => operator_cases(*op),
        _ => &OWN_CASES,
    }
}

/// The cases that an operator with two operands can have.
fn operator_cases(op: Binary) -> &'static [NodeCase]
    ensures { result.now ≡ operator_cases op }
{
    match op {
        Binary::BitwiseAnd | Binary::LogicalAnd => &AND_CASES,
        Binary::BitwiseOr | Binary::LogicalOr => &OR_CASES,
        _ => &FOUR_CASES,
    }
}
