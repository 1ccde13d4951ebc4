//! Tests of what is made of tables that are read: `db_tools`, `lcov_text` and `test_ranking`, over `coverage_db`.
#![tactic(auto)]

#[cfg(test)]
mod exclusions;
#[cfg(test)]
mod rankings;
#[cfg(test)]
mod tracefiles;
