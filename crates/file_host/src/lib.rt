//! The host that is the system: [`FileHost`] gives access to its files, its standard output and its standard error by
//! the trait `cov_host::Host`.
//!
//! It is proved to be a host: its calls change no more than they may, and a call that fails is counted. That the system
//! does to files what its calls say is not proved. [`read_some`] and [`write_some`] try again a call that a signal
//! interrupts; they are public for the tests, since no file of the system can be made to interrupt a call.
#![tactic(auto)]

mod file_host;
mod retry;

pub use file_host::FileHost;
pub use retry::{read_some, write_some};
