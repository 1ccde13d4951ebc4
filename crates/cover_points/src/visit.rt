use design_model::NodeCase;

/// What a replay reports of a design, and of which there is a coverage point.
#[derive(Clone, Copy)]
pub enum Visit {
    /// A statement of a process is reached.
    Line {
        /// The number of the process in the design.
        process: u32,
        /// The number of the line point.
        line: u32,
    },
    /// A counted node of a process is evaluated, with a case.
    Node {
        /// The number of the process in the design.
        process: u32,
        /// The number of the counted node.
        node: u32,
        /// The truths of its operands, or its own.
        case: NodeCase,
    },
    /// A bit of a signal, by its index as declared, goes from 0 to 1 where `rise` is true, else from 1 to 0.
    Toggle {
        /// The number of the signal in the design.
        signal: u32,
        /// The index of the bit, as declared.
        index: u32,
        /// Whether the bit goes from 0 to 1.
        rise: bool,
    },
    /// A word of a memory, by its index as declared, is read.
    Read {
        /// The number of the memory in the design.
        memory: u32,
        /// The index of the word, as declared.
        index: u32,
    },
    /// A word of a memory, by its index as declared, is written.
    Write {
        /// The number of the memory in the design.
        memory: u32,
        /// The index of the word, as declared.
        index: u32,
    },
}
