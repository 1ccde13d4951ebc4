use crate::{Address, DbVerdict, Window};
use cov_host::{Name, Sequence};

/// A database: the points of a design, how each came out, and in which windows of dumps.
#[derive(Drop)]
pub struct Db {
    /// The top module.
    pub top: Name,
    /// The names of the source files: the first is number 1.
    pub sources: Sequence<Name>,
    /// The instances, in rising order of the bytes of their paths.
    pub instances: Sequence<DbInstance>,
    /// The points, in their order (`Address::compare`).
    pub points: Sequence<DbPoint>,
    /// What was scored of each dump, each window once, in rising order (`Window::compare`).
    pub windows: Sequence<Window>,
}

/// An instance of a module.
pub struct DbInstance {
    /// The names from the top module's down to its own, joined by dots.
    pub path: Name,
    /// The name of its module.
    pub module: Name,
}

// Written out so that a crate which lets one go does not prove again how each of its parts is let go.
impl Drop for DbInstance {
    fn drop(self) {
        let DbInstance { path: _, module: _ } = self;
    }
}

/// A point with its verdict.
pub struct DbPoint {
    /// Which point it is.
    pub address: Address,
    /// How it came out.
    pub verdict: DbVerdict,
}

// Written out so that a crate which lets one go does not prove again how each of its parts is let go.
impl Drop for DbPoint {
    fn drop(self) {
        let DbPoint {
            address: _,
            verdict: _,
        } = self;
    }
}
