use cov_host::{Name, Place};
use four_state::Four;
use point_words::{LineWord, NodeCase};

/// A coverage point of a design.
#[derive(Drop)]
pub enum Point {
    /// A statement of an `always` block: its process, its number, the place of its first token and its word.
    Line {
        /// The number of its process.
        process: u32,
        /// Its number as a line point.
        line: u32,
        /// The place of its first token.
        place: Place,
        /// The kind of the statement.
        word: LineWord,
    },
    /// A case of a counted node: its process, its number, the place of its first token and its operator as written.
    Logic {
        /// The number of its process.
        process: u32,
        /// Its number as a counted node.
        node: u32,
        /// The place of its first token.
        place: Place,
        /// The operator as it is written.
        op: Name,
        /// The truths of its operands, or its own.
        case: NodeCase,
    },
    /// A bit of a signal, by its index as declared; with `rise` from 0 to 1, else from 1 to 0.
    Toggle {
        /// The number of the signal.
        signal: u32,
        /// The index of the bit, as declared.
        index: u32,
        /// Whether the bit goes from 0 to 1.
        rise: bool,
    },
    /// A named state of a signal, under the instance and name that its module uses.
    State {
        /// The number of the instance.
        instance: u32,
        /// The name of the variable in its module.
        name: Name,
        /// The number of the signal.
        signal: u32,
        /// The name of the state.
        state: Name,
        /// The value of the state.
        value: Four,
    },
    /// An ordered pair of two states of a signal.
    Arc {
        /// The number of the instance.
        instance: u32,
        /// The name of the variable in its module.
        name: Name,
        /// The number of the signal.
        signal: u32,
        /// The name of the first state.
        from: Name,
        /// The name of the second state.
        to: Name,
        /// The value of the first state.
        old: Four,
        /// The value of the second state.
        new: Four,
    },
    /// A word of a memory, by its index as declared: written where `write` is true, else read.
    Word {
        /// The number of the memory.
        memory: u32,
        /// The index of the word, as declared.
        index: u32,
        /// Whether the word is written, and else it is read.
        write: bool,
    },
}
