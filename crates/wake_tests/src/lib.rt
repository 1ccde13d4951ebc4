//! Tests of the sets of a step, of the signals that are written once, of the order of processes and of the bits that they
//! write and watch, on small designs.
#![tactic(auto)]

#[cfg(test)]
mod answers;
#[cfg(test)]
mod comparison;
#[cfg(test)]
mod definitions;
#[cfg(test)]
mod first_rounds;
#[cfg(test)]
mod last_rounds;
#[cfg(test)]
mod names;
#[cfg(test)]
mod orders;
#[cfg(test)]
mod rounds;
#[cfg(test)]
mod script;
#[cfg(test)]
mod steps;
#[cfg(test)]
mod targets;
#[cfg(test)]
mod turns;
#[cfg(test)]
mod writers;
