//! Tests of elaboration: `elab_const` on expressions of sources, and `elab_conflicts`.
#![tactic(auto)]

#[cfg(test)]
mod conflicts;
#[cfg(test)]
mod expressions;
#[cfg(test)]
mod faults;
#[cfg(test)]
mod parsed;
#[cfg(test)]
mod spelled;
#[cfg(test)]
mod statements;
