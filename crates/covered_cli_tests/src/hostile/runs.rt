//! Commands over files in memory.
use cov_host::{Calls, NoMemory, Words};
use covered_cli::{Status, covered};
use memory_hosts::MemoryHost;
use std::alloc::Global;

/// A host without files, of which the call with this number fails; none does where it is 0.
pub(crate) fn host_that_fails(alloc: Global, call: u64) -> Result<MemoryHost, NoMemory> {
    let mut failing = Calls::new(alloc);
    failing.push(call)?;
    MemoryHost::new(alloc, failing)
}

/// The status of the command of these words over a host.
pub(crate) fn status_of(
    alloc: Global,
    words: &[&str],
    host: &mut MemoryHost,
) -> Result<Status, NoMemory> {
    let mut given = Words::new(alloc);
    for word in words {
        given.push(word)?;
    }
    Ok(covered(alloc, &given, host))
}
