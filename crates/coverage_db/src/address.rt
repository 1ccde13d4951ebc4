ghost use Rattle.std.specs.Prelude.{◌≡◌};
ghost use Rattle.coverage_db.specs.Order.{address_cmp, rule_cmp, machine_cmp, letter_rank, bytes_cmp, index_cmp};
ghost use Rattle.coverage_db.specs.Text.{letter};

use crate::{LineWord, NodeCase, Operator};
use cov_host::Name;
use std::cmp::Ordering;

/// Which point it is: its instance, and what of the instance it counts.
#[derive(Drop)]
pub struct Address {
    /// The place of the instance in the database, from 0.
    pub instance: u32,
    /// What of the instance it counts.
    pub subject: Subject,
}

/// What a point counts of its instance.
#[derive(Drop)]
pub enum Subject {
    /// A statement is executed.
    Line {
        /// The number of the statement among those of its module, from 1 in order of the text.
        number: u32,
        /// The line on which the statement begins.
        at: SourceLine,
        /// The kind of the statement.
        word: LineWord,
    },
    /// A node is evaluated with these truths.
    Logic {
        /// The number of the node among those of its module, from 1 in order of the text.
        number: u32,
        /// The line on which the node begins.
        at: SourceLine,
        /// The operator of the node.
        operator: Operator,
        /// The truths of its operands, or its own.
        case: NodeCase,
    },
    /// A bit of a signal changes.
    Toggle {
        /// The name of the signal.
        name: Name,
        /// The index of the bit as declared. None for a signal without a range.
        index: Option<u32>,
        /// From 0 to 1, or from 1 to 0.
        rise: bool,
    },
    /// The signal of a machine has the value of a state.
    State {
        /// The name of the signal.
        name: Name,
        /// The name of the state.
        state: Name,
    },
    /// The signal of a machine goes from one state to another.
    Arc {
        /// The name of the signal.
        name: Name,
        /// The name of the state before.
        from: Name,
        /// The name of the state after it.
        to: Name,
    },
    /// A word of a memory is written, or is read.
    Word {
        /// The name of the memory.
        name: Name,
        /// The index of the word, as declared.
        index: u32,
        /// Whether the word is written, and else it is read.
        write: bool,
    },
}

/// A line of a source.
#[derive(Clone, Copy, PartialEq, Eq)]
pub struct SourceLine {
    /// The number of the source, from 1.
    pub source: u32,
    /// The number of the line, from 1.
    pub line: u32,
}

impl Address {
    /// The order of the points of a database: by letter, by instance, and by the rule of the letter.
    pub fn compare(&self, other: &Address) -> Ordering
        ensures { result ≡ address_cmp self.now other.now }
    {
        let letters = self.subject.letter_rank().cmp(&other.subject.letter_rank());
        letters
            .then(self.instance.cmp(&other.instance))
            .then(self.subject.compare(&other.subject))
    }
}

impl Subject {
    /// The letter that an address begins with.
    pub fn letter(&self) -> u8
        ensures { result ≡ letter self.now }
    {
        match self {
            Subject::Line { .. } => b'l',
            Subject::Logic { .. } => b'c',
            Subject::Toggle { .. } => b't',
            Subject::State { .. } | Subject::Arc { .. } => b'f',
            Subject::Word { .. } => b'm',
        }
    }

    /// The place of the letter in the order `l`, `c`, `t`, `f`, `m`, from 0.
    pub fn letter_rank(&self) -> u8
        ensures { result ≡ letter_rank self.now }
    {
        match self {
            Subject::Line { .. } => 0,
            Subject::Logic { .. } => 1,
            Subject::Toggle { .. } => 2,
            Subject::State { .. } | Subject::Arc { .. } => 3,
            Subject::Word { .. } => 4,
        }
    }

    /// The order of two points of one letter and one instance: by number and case, or by name and what
    /// follows it.
    pub fn compare(&self, other: &Subject) -> Ordering
        ensures { result ≡ rule_cmp self.now other.now }
    {
        match (self, other) {
            (Subject::Line { number, .. }, Subject::Line { number: after, .. }) => number.cmp(
                after,
            ),
            (
                Subject::Logic { number, case, .. },
                Subject::Logic {
                    number: after,
                    case: next,
                    ..
                },
            ) => number.cmp(after).then(case.rank().cmp(&next.rank())),
            (
                Subject::Toggle { name, index, rise },
                Subject::Toggle {
                    name: after,
                    index: place,
                    rise: rises,
                },
            ) => compare_names(name, after)
                .then(compare_indexes(*index, *place))
                .then(rises.cmp(rise)),
            (
                Subject::Word { name, index, write },
                Subject::Word {
                    name: after,
                    index: place,
                    write: writes,
                },
            ) => compare_names(name, after)
                .then(index.cmp(place))
                .then(write.cmp(writes)),
            _ => self.compare_machines(other),
        }
    }

    /// The order of two points of machines: by name, then the states before the arcs.
    fn compare_machines(&self, other: &Subject) -> Ordering
        ensures { result ≡ machine_cmp self.now other.now }
    {
        match (self, other) {
            (
                Subject::State { name, state },
                Subject::State {
                    name: after,
                    state: next,
                },
            ) => compare_names(name, after).then(compare_names(state, next)),
            (Subject::State { name, .. }, Subject::Arc { name: after, .. }) => {
                compare_names(name, after).then(Ordering::Less)
            }
            (Subject::Arc { name, .. }, Subject::State { name: after, .. }) => {
                compare_names(name, after).then(Ordering::Greater)
            }
            (
                Subject::Arc { name, from, to },
                Subject::Arc {
                    name: after,
                    from: source,
                    to: target,
                },
            ) => compare_names(name, after)
                .then(compare_names(from, source))
                .then(compare_names(to, target)),
            _ => Ordering::Equal,
        }
    }
}

/// By the bytes.
fn compare_names(left: &Name, right: &Name) -> Ordering
    ensures { result ≡ bytes_cmp left.now right.now }
{
    left.as_slice().cmp(right.as_slice())
}

/// No index first, and then by number.
fn compare_indexes(left: Option<u32>, right: Option<u32>) -> Ordering
    ensures { result ≡ index_cmp left right }
{
    left.cmp(&right)
}
