//! Tests of the points of designs: their addresses and visits in example designs, and the verdicts of their marks.
#![tactic(auto)]

#[cfg(test)]
mod addresses;
#[cfg(test)]
mod cases;
#[cfg(test)]
mod designs;
#[cfg(test)]
mod machine_cases;
#[cfg(test)]
mod mark_cases;
#[cfg(test)]
mod tables;
#[cfg(test)]
mod tests;
#[cfg(test)]
mod visits;
