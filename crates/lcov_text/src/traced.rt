ghost use Rattle.std.specs.Prelude.{◌≡◌, ◌<◌, length, option_map};
ghost use Rattle.std.specs.Cmp.Lexicographic.{slice_cmp};
ghost use Rattle.coverage_db.specs.Order.{bytes_cmp};
ghost use Rattle.cov_report.specs.Report.{is_hit};
ghost use Rattle.lcov_text.specs.Points.{part_rank, trace_point, section, section_of, branch_key, same_node, case_number, branch_number};
ghost use Rattle.lcov_text.specs.Views.{trace_view, branch_view, traced_cmp, joined_traced};

use cov_host::Name;
use coverage_db::{DbInstance, DbPoint, DbVerdict, NodeCase, Operator, SourceLine, Subject};
use std::cmp::Ordering;

/// A point as a tracefile counts it: a line on which a statement begins, or a branch on a line.
#[derive(Clone, Copy)]
pub(crate) struct Traced<'a> {
    /// Where the statement or the node begins.
    pub(crate) at: SourceLine,
    /// None for a line.
    pub(crate) branch: Option<Branch<'a>>,
    pub(crate) is_hit: bool,
}

/// A branch: one case of a counted node.
#[derive(Clone, Copy)]
pub(crate) struct Branch<'a> {
    pub(crate) module: &'a Name,
    /// The number of the node among those of its module.
    pub(crate) number: u32,
    pub(crate) operator: Operator,
    pub(crate) case: NodeCase,
}

/// The two parts of what a record says of its source.
#[derive(Clone, Copy)]
pub(crate) enum Part {
    Lines,
    Branches,
}

impl Part {
    /// The place of the part in the order of points, from 0.
    pub(crate) fn rank(self) -> u8
        ensures { result ≡ part_rank self }
    {
        match self {
            Part::Lines => 0,
            Part::Branches => 1,
        }
    }
}

/// A point of one of these instances, if it has a place in a source.
pub(crate) fn traced_point<'a>(
    instances: &'a [DbInstance],
    point: &'a DbPoint,
) -> Option<Traced<'a>>
    requires { point.now.address.instance < length instances.now }
    ensures { option_map trace_view result ≡ trace_point instances.now point.now }
{
    let is_hit = is_hit(&point.verdict);
    match &point.address.subject {
        Subject::Line { at, .. } => Some(Traced {
            at: *at,
            branch: None,
            is_hit,
        }),
        Subject::Logic {
            number,
            at,
            operator,
            case,
        } => Some(Traced {
            at: *at,
            branch: Some(Branch {
                module: &instances[point.address.instance as usize].module,
                number: *number,
                operator: *operator,
                case: *case,
            }),
            is_hit,
        }),
        Subject::Toggle { .. } => None,
        Subject::State { .. } => None,
        Subject::Arc { .. } => None,
        Subject::Word { .. } => None,
    }
}

/// Whether the point is hit. One that is left open is not.
fn is_hit(verdict: &DbVerdict) -> bool
    ensures { result ≡ is_hit verdict.now }
{
    match verdict {
        DbVerdict::Hit => true,
        DbVerdict::Missed => false,
        DbVerdict::Undetermined { .. } => false,
    }
}

impl Traced<'_> {
    fn part(&self) -> Part
        ensures { section_of self.now.at.source result ≡ section (trace_view self.now) }
    {
        match self.branch {
            None => Part::Lines,
            Some(_) => Part::Branches,
        }
    }

    /// The order of points: by source, by part, by line, by node and by case.
    pub(crate) fn compare(&self, other: &Traced<'_>) -> Ordering
        ensures { result ≡ traced_cmp self.now other.now }
    {
        self.compare_section(other.at.source, other.part())
            .then(self.at.line.cmp(&other.at.line))
            .then(compare_branches(&self.branch, &other.branch))
    }

    /// The order of the part that the point is in, and a part of the record of a source.
    pub(crate) fn compare_section(&self, source: u32, part: Part) -> Ordering
        ensures { result ≡ bytes_cmp (section (trace_view self.now)) (section_of source part) }
    {
        self.at
            .source
            .cmp(&source)
            .then(self.part().rank().cmp(&part.rank()))
    }

    /// The point in several instances: hit where it is hit in one of them.
    pub(crate) fn joined(&self, other: &Traced<'_>) -> Self
        ensures { result ≡ joined_traced self.now other.now }
    {
        Traced {
            is_hit: self.is_hit || other.is_hit,
            ..*self
        }
    }

    /// Whether both are cases of one node.
    pub(crate) fn is_same_node(&self, other: &Traced<'_>) -> bool
        ensures { result ≡ same_node (trace_view self.now).branch (trace_view other.now).branch }
    {
        match (&self.branch, &other.branch) {
            (Some(left), Some(right)) => left.is_same_node(right),
            _ => false,
        }
    }

    /// The number of the branch among those of its node, from 0; 0 for a line.
    pub(crate) fn branch_number(&self) -> u8
        ensures { result ≡ branch_number (trace_view self.now).branch }
    {
        match &self.branch {
            Some(branch) => case_number(branch.operator, branch.case),
            None => 0,
        }
    }
}

/// No branch first, and then by node and by case.
fn compare_branches(left: &Option<Branch<'_>>, right: &Option<Branch<'_>>) -> Ordering
    ensures { result ≡ slice_cmp bytes_cmp (branch_key (option_map branch_view left.now)) (branch_key (option_map branch_view right.now)) }
{
    match (left, right) {
        (Some(left), Some(right)) => left.compare(right),
        (Some(_), None) => Ordering::Greater,
        (None, Some(_)) => Ordering::Less,
        (None, None) => Ordering::Equal,
    }
}

impl Branch<'_> {
    /// By module, by number, by operator and by case.
    fn compare(&self, other: &Branch<'_>) -> Ordering
        ensures { result ≡ slice_cmp bytes_cmp (branch_key (Some (branch_view self.now))) (branch_key (Some (branch_view other.now))) }
    {
        let operators = self
            .operator
            .text()
            .as_bytes()
            .cmp(other.operator.text().as_bytes());
        self.module
            .as_slice()
            .cmp(other.module.as_slice())
            .then(self.number.cmp(&other.number))
            .then(operators)
            .then(self.case.rank().cmp(&other.case.rank()))
    }

    /// Whether both are cases of one node.
    fn is_same_node(&self, other: &Branch<'_>) -> bool
        ensures { result ≡ same_node (Some (branch_view self.now)) (Some (branch_view other.now)) }
    {
        self.module.as_slice() == other.module.as_slice()
            && self.number == other.number
            && self.operator == other.operator
    }
}

/// The place of a case among those that a node of the operator has, from 0.
fn case_number(operator: Operator, case: NodeCase) -> u8
    ensures { result ≡ case_number operator case }
{
    match case {
        NodeCase::ValueFalse | NodeCase::LeftFalse | NodeCase::LeftTrue => 0,
        NodeCase::ValueTrue | NodeCase::RightFalse | NodeCase::RightTrue | NodeCase::FalseTrue => 1,
        NodeCase::BothFalse => {
            if operator.can_have(NodeCase::LeftTrue) {
                2
            } else {
                0
            }
        }
        NodeCase::TrueFalse => 2,
        NodeCase::BothTrue => {
            if operator.can_have(NodeCase::LeftFalse) {
                2
            } else {
                3
            }
        }
    }
}
