use cov_host::{Place, Sequence};
use four_state::{Binary, CaseKind, Edge, Four, Unary};

/// An expression. It has the width and the sign that its context gives it (IEEE 1364-2001, 4.4, 4.5).
#[derive(Drop)]
#[cycle(term)]
pub struct Term {
    /// Of its first token.
    pub place: Place,
    /// From 1 to 128.
    pub width: u8,
    /// Whether it is signed.
    pub signed: bool,
    /// Its number as a counted node, from 1.
    pub node: Option<u32>,
    /// Its form, in a box.
    pub form: Box<Form>,
}

/// The forms of an expression.
#[derive(Drop)]
#[cycle(term)]
pub enum Form {
    Number(Four),
    Signal(u32),
    /// A word of a memory.
    Word {
        memory: u32,
        index: Term,
    },
    /// `of[index]`.
    Bit {
        of: Term,
        index: Term,
    },
    /// `of[high:low]`.
    Part {
        of: Term,
        high: Term,
        low: Term,
    },
    /// `of[base +: width]`, or where `up` is false `of[base -: width]`.
    Slide {
        of: Term,
        base: Term,
        width: Term,
        up: bool,
    },
    Unary(Unary, Term),
    Binary(Binary, Term, Term),
    /// `test ? yes : no`.
    Choice {
        test: Term,
        yes: Term,
        no: Term,
    },
    /// The first term is the highest.
    Concat(Vec<Term>),
    Repeat(Term, Vec<Term>),
    /// `$signed` where the flag is true, else `$unsigned`.
    Sign(bool, Term),
}

/// The left side of an assignment (IEEE 1364-2001, 6).
#[derive(Drop)]
pub enum Target {
    /// All bits of a signal.
    Whole(u32),
    /// `width` bits of a signal, from the bit with the index `low` up.
    Part { signal: u32, low: Term, width: u8 },
    /// A word of a memory.
    Word { memory: u32, index: Term },
    /// A concatenation; the first target is the highest.
    Several(Vec<Target>),
}

/// A statement (IEEE 1364-2001, 9).
#[derive(Drop)]
#[cycle(statement)]
pub struct Stmt {
    /// Of its first token.
    pub place: Place,
    /// Its form, in a box.
    pub form: Box<StmtForm>,
}

/// The forms of a statement. `line` is its number as a line point, from 1.
#[derive(Drop)]
#[cycle(statement)]
pub enum StmtForm {
    Block(Vec<Stmt>),
    If {
        line: u32,
        test: Term,
        yes: Stmt,
        no: Option<Stmt>,
    },
    Case {
        line: u32,
        kind: CaseKind,
        on: Term,
        arms: Vec<CaseArm>,
    },
    /// A `for` with each of its turns written out.
    Turns {
        line: u32,
        turns: Vec<Stmt>,
    },
    Set {
        line: u32,
        blocking: bool,
        target: Target,
        value: Term,
    },
    Empty,
}

/// An arm of a `case`. One without labels is the `default`.
#[derive(Drop)]
#[cycle(statement)]
pub struct CaseArm {
    /// The labels, none for the `default`.
    pub labels: Vec<Term>,
    /// The statement of the arm.
    pub body: Stmt,
}

/// A process (IEEE 1364-2001, 5.1).
#[derive(Drop)]
pub enum Process {
    /// A continuous assignment (IEEE 1364-2001, 6.1).
    Assign {
        /// The number of its instance.
        instance: u32,
        /// What is assigned.
        target: Target,
        /// The value that it is assigned.
        value: Term,
        /// Whether it has coverage points.
        counted: bool,
    },
    /// An `always @*`, or an `always` with a list of names.
    Comb {
        /// The number of its instance.
        instance: u32,
        /// The numbers of the signals of its list of names; for `@*`, of those that its text reads (IEEE 1364-2001, 9.7.5).
        wakes: Sequence<u32>,
        /// Its statement.
        body: Stmt,
    },
    /// An `always` with a list of edges.
    Clocked {
        /// The number of its instance.
        instance: u32,
        /// The edges of its list, each with the number of its signal.
        events: Sequence<(Edge, u32)>,
        /// Its statement.
        body: Stmt,
    },
}

impl Process {
    /// Lets go of a process, here and in no crate above.
    pub fn discard(self) {}
}
