use cov_host::{Name, Sequence};

/// The variables of a dump in order of declaration.
pub type Vars = Sequence<Var>;

/// A variable of the dump's header (IEEE 1364-2001 clause 18.2.3.8).
#[derive(Drop)]
pub struct Var {
    /// The names of the open scopes, the outermost first, joined by dots.
    pub scope: Name,
    /// The word after `$var`, such as `wire` or `reg`.
    pub kind: Name,
    /// The first word of the reference up to its first `[`.
    pub name: Name,
    /// Its number of bits as printed, from 1 to 999,999,999.
    pub size: u32,
    /// The number of its identifier code, by first appearance from 0. Variables of one code are one signal.
    pub code: u32,
}
