//! What of an address its place among the points goes by, lent by a text.
ghost use Rattle.std.specs.Prelude.{◌≡◌};
ghost use Rattle.coverage_db.specs.Order.{address_cmp, bytes_cmp, index_cmp, letter_rank, machine_cmp, rule_cmp};
ghost use Rattle.point_lookup.specs.Keys.{seen, seen_subject};

use cov_host::Name;
use coverage_db::{Address, NodeCase, Subject};
use std::cmp::Ordering;

/// What of an address its place among the points goes by.
#[derive(Drop)]
pub(crate) struct Key<'a> {
    /// The place of the instance in the database, from 0.
    pub(crate) instance: u32,
    /// What of the instance the point counts.
    pub(crate) subject: KeySubject<'a>,
}

/// What a point counts, as far as the order of the points looks at it.
#[derive(Drop)]
pub(crate) enum KeySubject<'a> {
    /// A statement.
    Line {
        /// Its number.
        number: u32,
    },
    /// A node.
    Logic {
        /// Its number.
        number: u32,
        /// The truths of its operands, or its own.
        case: NodeCase,
    },
    /// A bit of a signal.
    Toggle {
        /// The name of the signal.
        name: &'a [u8],
        /// The index of the bit.
        index: Option<u32>,
        /// From 0 to 1, or from 1 to 0.
        rise: bool,
    },
    /// A state of a machine.
    State {
        /// The name of the signal.
        name: &'a [u8],
        /// The name of the state.
        state: &'a [u8],
    },
    /// An arc of a machine.
    Arc {
        /// The name of the signal.
        name: &'a [u8],
        /// The name of the state before.
        from: &'a [u8],
        /// The name of the state after it.
        to: &'a [u8],
    },
    /// A word of a memory.
    Word {
        /// The name of the memory.
        name: &'a [u8],
        /// The index of the word.
        index: u32,
        /// Whether it is written, and else it is read.
        write: bool,
    },
}

impl<'a> Key<'a> {
    /// The order of an address and this one.
    pub(crate) fn compare(&self, address: &Address) -> Ordering
        ensures { result ≡ address_cmp address.now (seen self.now) }
    {
        let letters = address
            .subject
            .letter_rank()
            .cmp(&self.subject.letter_rank());
        letters
            .then(address.instance.cmp(&self.instance))
            .then(self.subject.compare(&address.subject))
    }
}

impl<'a> KeySubject<'a> {
    /// The place of the letter in the order `l`, `c`, `t`, `f`, `m`, from 0.
    fn letter_rank(&self) -> u8
        ensures { result ≡ letter_rank (seen_subject self.now) }
    {
        match self {
            KeySubject::Line { .. } => 0,
            KeySubject::Logic { .. } => 1,
            KeySubject::Toggle { .. } => 2,
            KeySubject::State { .. } | KeySubject::Arc { .. } => 3,
            KeySubject::Word { .. } => 4,
        }
    }

    /// The order of what a point counts and this, of one letter and one instance.
    fn compare(&self, subject: &Subject) -> Ordering
        ensures { result ≡ rule_cmp subject.now (seen_subject self.now) }
    {
        match (subject, self) {
            (Subject::Line { number, .. }, KeySubject::Line { number: wanted }) => number.cmp(
                wanted,
            ),
            (
                Subject::Logic { number, case, .. },
                KeySubject::Logic {
                    number: wanted,
                    case: truths,
                },
            ) => number.cmp(wanted).then(case.rank().cmp(&truths.rank())),
            (
                Subject::Toggle { name, index, rise },
                KeySubject::Toggle {
                    name: wanted,
                    index: place,
                    rise: rises,
                },
            ) => compare_names(name, *wanted)
                .then(compare_indexes(*index, *place))
                .then(rises.cmp(rise)),
            (
                Subject::Word { name, index, write },
                KeySubject::Word {
                    name: wanted,
                    index: place,
                    write: writes,
                },
            ) => compare_names(name, *wanted)
                .then(index.cmp(place))
                .then(write.cmp(writes)),
            _ => self.compare_machines(subject),
        }
    }

    /// The order of two points of machines: by name, then the states before the arcs.
    fn compare_machines(&self, subject: &Subject) -> Ordering
        ensures { result ≡ machine_cmp subject.now (seen_subject self.now) }
    {
        match (subject, self) {
            (
                Subject::State { name, state },
                KeySubject::State {
                    name: wanted,
                    state: next,
                },
            ) => compare_names(name, *wanted).then(compare_names(state, *next)),
            (Subject::State { name, .. }, KeySubject::Arc { name: wanted, .. }) => {
                compare_names(name, *wanted).then(Ordering::Less)
            }
            (Subject::Arc { name, .. }, KeySubject::State { name: wanted, .. }) => {
                compare_names(name, *wanted).then(Ordering::Greater)
            }
            (
                Subject::Arc { name, from, to },
                KeySubject::Arc {
                    name: wanted,
                    from: source,
                    to: target,
                },
            ) => compare_names(name, *wanted)
                .then(compare_names(from, *source))
                .then(compare_names(to, *target)),
            _ => Ordering::Equal,
        }
    }
}

/// By the bytes.
fn compare_names(left: &Name, right: &[u8]) -> Ordering
    ensures { result ≡ bytes_cmp left.now right.now }
{
    left.as_slice().cmp(right)
}

/// No index first, and then by number.
fn compare_indexes(left: Option<u32>, right: Option<u32>) -> Ordering
    ensures { result ≡ index_cmp left right }
{
    left.cmp(&right)
}
