//! Tests of sets of numbers, of rows, and of the processes that are to run: `index_sets` and `wake_list`.

mod sets;
mod wakes;
