//! Tests of the databases: `coverage_db`, `db_tools`, `cov_report`, `command_line` and `database_commands`.
#![tactic(auto)]

#[cfg(test)]
mod commands;
#[cfg(test)]
mod database_cases;
#[cfg(test)]
mod databases;
#[cfg(test)]
mod exclusions;
#[cfg(test)]
mod rankings;
#[cfg(test)]
mod report_cases;
#[cfg(test)]
mod reports;
#[cfg(test)]
mod usage_cases;
#[cfg(test)]
mod words;
