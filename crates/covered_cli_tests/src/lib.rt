//! Tests of `covered_cli`: commands over files in memory.
#![tactic(auto)]

#[cfg(test)]
mod commands;
#[cfg(test)]
mod hostile;
