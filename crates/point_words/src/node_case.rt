ghost use Rattle.std.specs.Prelude.{◌≡◌};
ghost use Rattle.point_words.specs.Words.{node_case_text, node_case_of, node_case_rank};

/// One case of a counted node: the truths of its operands, or of the node itself.
#[derive(Clone, Copy, PartialEq, Eq)]
pub enum NodeCase {
    /// `0`: the node itself is false.
    ValueFalse,
    /// `1`: the node itself is true.
    ValueTrue,
    /// `0-`: the left operand is false.
    LeftFalse,
    /// `-0`: the right operand is false.
    RightFalse,
    /// `1-`: the left operand is true.
    LeftTrue,
    /// `-1`: the right operand is true.
    RightTrue,
    /// `00`: both operands are false.
    BothFalse,
    /// `01`: the left operand is false and the right one true.
    FalseTrue,
    /// `10`: the left operand is true and the right one false.
    TrueFalse,
    /// `11`: both operands are true.
    BothTrue,
}

impl NodeCase {
    /// All cases, in the order of point lines.
    #[rattlefmt::skip]
    pub const ALL: [NodeCase; 10] = [
        NodeCase::ValueFalse, NodeCase::ValueTrue,
        NodeCase::LeftFalse, NodeCase::RightFalse, NodeCase::LeftTrue, NodeCase::RightTrue,
        NodeCase::BothFalse, NodeCase::FalseTrue, NodeCase::TrueFalse, NodeCase::BothTrue,
    ];

    /// The field of the database text.
    pub fn text(self) -> &'static str
        ensures { result.now ≡ node_case_text self }
    {
        match self {
            NodeCase::ValueFalse => "0",
            NodeCase::ValueTrue => "1",
            NodeCase::LeftFalse => "0-",
            NodeCase::RightFalse => "-0",
            NodeCase::LeftTrue => "1-",
            NodeCase::RightTrue => "-1",
            NodeCase::BothFalse => "00",
            NodeCase::FalseTrue => "01",
            NodeCase::TrueFalse => "10",
            NodeCase::BothTrue => "11",
        }
    }

    /// The case that a field of the database text names.
    #[tactic(auto, unfolding(crate::specs::Words::node_case_of))]
    pub fn of_text(text: &[u8]) -> Option<Self>
        ensures { result ≡ node_case_of text.now }
    {
        for case in &NodeCase::ALL {
            if case.text().as_bytes() == text {
                return Some(*case);
            }
        }
        None
    }

    /// The place of the case in the order of point lines, from 0.
    pub fn rank(self) -> u8
        ensures { result ≡ node_case_rank self }
    {
        match self {
            NodeCase::ValueFalse => 0,
            NodeCase::ValueTrue => 1,
            NodeCase::LeftFalse => 2,
            NodeCase::RightFalse => 3,
            NodeCase::LeftTrue => 4,
            NodeCase::RightTrue => 5,
            NodeCase::BothFalse => 6,
            NodeCase::FalseTrue => 7,
            NodeCase::TrueFalse => 8,
            NodeCase::BothTrue => 9,
        }
    }
}
