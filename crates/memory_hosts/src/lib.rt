//! Hosts for tests, which keep files in memory: [`SureHost`] is without faults, and the calls of a [`MemoryHost`] fail
//! where that is planned.
//!
//! Both are proved to be hosts (`cov_host::Host`) whose files are known. Only tests show that the calls of a `MemoryHost`
//! that are planned to fail do fail.
#![tactic(auto)]

mod input;
mod memory_host;
mod planned_faults;
mod sure_host;

pub use memory_host::MemoryHost;
pub use sure_host::SureHost;
