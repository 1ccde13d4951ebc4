use crate::modules::ModuleTable;
use std::alloc::Global;

/// What stays the same in a walk.
#[derive(Clone, Copy)]
pub(crate) struct Ground<'w, 'a> {
    pub(crate) alloc: Global,
    /// The number of the first memory.
    pub(crate) base: u32,
    pub(crate) modules: &'w ModuleTable<'a>,
}
