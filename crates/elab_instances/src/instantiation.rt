use cov_host::{Name, Place};
use elab_declarations::Override;
use verilog_tree::Module;

/// A port that is joined to a plain name, with the number of the outer signal.
#[derive(Clone, Copy, Drop)]
pub struct PortAlias<'a> {
    /// The name of the port.
    pub port: &'a [u8],
    /// The number of the outer signal.
    pub signal: u32,
}

/// An instance of a module that is to be elaborated.
#[derive(Drop)]
pub struct Instantiation<'a> {
    /// The module of which it is an instance.
    pub module: &'a Module,
    /// The names from the top module's down to its own, joined by dots.
    pub path: Name,
    /// The values of parameters that it overrides.
    pub overrides: Vec<Override>,
    /// In the order of the port list.
    pub aliases: Vec<PortAlias<'a>>,
    /// The modules around it from the top's on, and its own.
    pub around: Vec<&'a Module>,
    /// Of the item that names it.
    pub item: Place,
    /// Whether it is the top.
    pub is_top: bool,
}

/// The numbers of the next signal and of the next memory.
#[derive(Clone, Copy, Drop)]
pub struct Numbers {
    /// The number of the next signal.
    pub signal: u32,
    /// The number of the next memory.
    pub memory: u32,
}
