//! Tests of the libraries of values, designs, memories, sets of numbers and dumps: `four_state`, `known_state`, `design_model`,
//! `memory_rebuild`, `index_sets`, `wake_list` and `vcd_reader`.
#![tactic(auto)]

#[cfg(test)]
mod design_paths;
#[cfg(test)]
mod dumps;
#[cfg(test)]
mod memories;
#[cfg(test)]
mod number_sets;
#[cfg(test)]
mod values;
