//! The words of coverage points: kinds of statements, cases of counted nodes and operators, with their texts.
//!
//! Each of the three enums has `ALL`, `text` and `of_text`, which is proved to be the search for the text in `ALL`.
//! [`Operator::can_have`] says which cases a node of an operator has.
#![tactic(auto)]

mod line_word;
mod node_case;
mod operator;

pub use line_word::LineWord;
pub use node_case::NodeCase;
pub use operator::Operator;
