use crate::{Expr, Statement};
use cov_host::{Name, Place, Sequence};
use four_state::Edge;

/// An identifier with its place.
#[derive(Drop)]
pub struct Named {
    /// The bytes of the identifier.
    pub name: Name,
    /// The place of its token.
    pub place: Place,
}

/// `[high:low]`, with the place of the `[`.
#[derive(Drop)]
pub struct Range {
    /// The left bound.
    pub high: Expr,
    /// The right bound.
    pub low: Expr,
    /// The place of the `[`.
    pub bracket: Place,
}

/// A parameter (IEEE 1364-2001 clause 3.11).
#[derive(Drop)]
pub struct Param {
    /// Its name.
    pub name: Named,
    /// Whether it is declared by `localparam`.
    pub local: bool,
    /// Whether it is declared by `signed`.
    pub signed: bool,
    /// Whether it is declared by `integer`.
    pub integer: bool,
    /// Its range, if it is declared with one.
    pub range: Option<Range>,
    /// The value that it is declared with.
    pub value: Expr,
}

/// A declared net or variable, with its initial value or with the range of its words if it is a memory.
#[derive(Drop)]
pub struct Declared {
    /// Its name.
    pub name: Named,
    /// The value of a net that is declared with one.
    pub value: Option<Expr>,
    /// The range of the words of a memory.
    pub words: Option<Range>,
}

/// A connection or an override. Without a name it is by position, and without a value it is an empty connection.
#[derive(Drop)]
pub struct Given {
    /// The port or the parameter, None by position.
    pub name: Option<Named>,
    /// The expression, None for an empty connection.
    pub value: Option<Expr>,
}

/// An instance with its connections.
#[derive(Drop)]
pub struct One {
    /// The name of the instance.
    pub name: Named,
    /// Its connections, in order of the text.
    pub given: Sequence<Given>,
}

/// What an `always` block waits for (IEEE 1364-2001 clause 9.7).
#[derive(Drop)]
pub enum When {
    /// `@*`.
    Star,
    /// `@(a or b)`.
    Names(Sequence<Named>),
    /// `@(posedge a or negedge b)`.
    Edges(Sequence<(Edge, Named)>),
}

/// An item of a module (IEEE 1364-2001 clause 12.1). Of an `assign` with several assignments each is an item, with
/// the place of the `assign`.
#[derive(Drop)]
pub struct Item {
    /// Of its first token.
    pub place: Place,
    /// Its form.
    pub form: ItemForm,
}

/// The forms of an item.
#[derive(Drop)]
pub enum ItemForm {
    /// `input` or `output`, also in the header: a port and the plain names after it.
    Port {
        input: bool,
        reg: bool,
        signed: bool,
        range: Option<Range>,
        names: Sequence<Named>,
    },
    /// `wire`.
    Net {
        signed: bool,
        range: Option<Range>,
        names: Sequence<Declared>,
    },
    /// `reg`, memories among them.
    Var {
        signed: bool,
        range: Option<Range>,
        names: Sequence<Declared>,
    },
    /// `integer`.
    Integer(Sequence<Declared>),
    /// `parameter` or `localparam`.
    Params(Sequence<Param>),
    /// `assign target = value`.
    Assign {
        target: Expr,
        value: Expr,
    },
    /// `always @when body`.
    Always {
        when: When,
        body: Statement,
    },
    /// `initial` with its statement.
    Initial(Statement),
    /// Instances of one module, with the parameters that they override.
    Instance {
        module: Named,
        overrides: Sequence<Given>,
        ones: Sequence<One>,
    },
}
