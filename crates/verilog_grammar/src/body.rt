/// The kind of process around a statement, which decides what it may be.
#[derive(Clone, Copy)]
pub enum Body {
    /// Under `*` or names.
    Combinational,
    /// Under edges.
    Clocked,
    /// In an `initial`.
    Initial,
}
