use cov_host::Place;
use design_model::{LineWord, NodeCase};
use point_words::Operator;

/// The process that a point belongs to.
#[derive(Clone, Copy)]
pub struct Owner {
    /// The number of its instance in the design.
    pub instance: u32,
    /// Its number in the design.
    pub process: u32,
}

/// A statement of a process.
#[derive(Clone, Copy)]
pub struct LinePoint {
    /// The number of its instance in the design.
    pub instance: u32,
    /// The number of the line point in its module.
    pub line: u32,
    /// The number of its process in the design.
    pub process: u32,
    /// Of the first token of the statement.
    pub place: Place,
    /// The kind of the statement.
    pub word: LineWord,
}

/// A case of a counted node of a process.
#[derive(Clone, Copy)]
pub struct NodePoint {
    /// The number of its instance in the design.
    pub instance: u32,
    /// The number of the counted node in its module.
    pub node: u32,
    /// The truths of its operands, or its own.
    pub case: NodeCase,
    /// The number of its process in the design.
    pub process: u32,
    /// Of the first token of the node.
    pub place: Place,
    /// Its operator, or the value of a condition.
    pub operator: Operator,
}
