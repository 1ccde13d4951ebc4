ghost use Rattle.std.specs.Prelude.{◌≡◌, ◌==◌, ◌&&◌, bytes_eq};
ghost use Rattle.coverage_db.specs.Same.{same_address, same_subject, same_machine};
ghost use Rattle.point_words.specs.Words.{node_case_rank, operator_rank};

use crate::{Address, NodeCase, Operator, Subject};
use cov_host::Name;

impl Address {
    /// Whether both are the same point.
    pub fn is_same(&self, other: &Address) -> bool
        ensures { result ≡ same_address self.now other.now }
    {
        self.instance == other.instance && self.subject.is_same(&other.subject)
    }
}

impl Subject {
    /// Whether both count the same.
    pub fn is_same(&self, other: &Subject) -> bool
        ensures { result ≡ same_subject self.now other.now }
    {
        match (self, other) {
            (
                Subject::Line { number, at, word },
                Subject::Line {
                    number: count,
                    at: place,
                    word: kind,
                },
            ) => *number == *count && *at == *place && *word == *kind,
            (
                Subject::Logic {
                    number,
                    at,
                    operator,
                    case,
                },
                Subject::Logic {
                    number: count,
                    at: place,
                    operator: written,
                    case: truths,
                },
            ) => *number == *count
                && *at == *place
                && is_same_case(*operator, *case, *written, *truths),
            (
                Subject::Toggle { name, index, rise },
                Subject::Toggle {
                    name: called,
                    index: place,
                    rise: rises,
                },
            ) => is_same_name(name, called) && *index == *place && *rise == *rises,
            (
                Subject::Word { name, index, write },
                Subject::Word {
                    name: called,
                    index: place,
                    write: writes,
                },
            ) => is_same_name(name, called) && *index == *place && *write == *writes,
            _ => self.is_same_machine(other),
        }
    }

    /// Whether both are the same state or the same arc.
    fn is_same_machine(&self, other: &Subject) -> bool
        ensures { result ≡ same_machine self.now other.now }
    {
        match (self, other) {
            (
                Subject::State { name, state },
                Subject::State {
                    name: called,
                    state: value,
                },
            ) => is_same_name(name, called) && is_same_name(state, value),
            (
                Subject::Arc { name, from, to },
                Subject::Arc {
                    name: called,
                    from: source,
                    to: target,
                },
            ) => {
                is_same_name(name, called) && is_same_name(from, source) && is_same_name(to, target)
            }
            _ => false,
        }
    }
}

/// Whether both are the same operator with the same case.
fn is_same_case(operator: Operator, case: NodeCase, written: Operator, truths: NodeCase) -> bool
    ensures { result ≡ (operator_rank operator == operator_rank written && node_case_rank case == node_case_rank truths) }
{
    operator == written && case == truths
}

/// Whether both names have the same bytes.
pub(crate) fn is_same_name(left: &Name, right: &Name) -> bool
    ensures { result ≡ bytes_eq left.now right.now }
{
    left.as_slice() == right.as_slice()
}
