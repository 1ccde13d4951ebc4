//! Tests of the runs of bodies on values that are partly known, in all four ways: `block_runs` with what is below it, and
//! `run_marks`, which marks what a run notes.
#![tactic(auto)]

#[cfg(test)]
mod random_bodies;
#[cfg(test)]
mod scripts;
