//! Tests of the hosts and of the files that are read through them: `file_host`, `memory_hosts` and `source_files`.
#![tactic(auto)]

#[cfg(test)]
mod hosts;
#[cfg(test)]
mod interrupts;
#[cfg(test)]
mod sources;
