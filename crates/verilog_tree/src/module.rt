use crate::{Item, Named, Param};
use cov_host::Sequence;

/// A module (IEEE 1364-2001 clause 12.1).
pub struct Module {
    /// Its name.
    pub name: Named,
    /// Those of the header.
    pub params: Sequence<Param>,
    /// The names of the port list.
    pub ports: Sequence<Named>,
    /// The ports that the header declares, and then the items of the body.
    pub items: Sequence<Item>,
}

// Written out so that a crate which lets one go does not prove again how each of its parts is let go.
impl Drop for Module {
    fn drop(self) {
        let Module {
            name: _,
            params: _,
            ports: _,
            items: _,
        } = self;
    }
}

/// Modules in order.
pub type Modules = Sequence<Module>;
