//! The words of the command line, read into a command with its values or into the first fault of usage.
//!
//! [`read_command`] gives exactly the command of the words, or their first fault from the left
//! (`specs/CommandWords.antt`, `specs/UsageFault.antt`). A command is its name, its options with their values and the
//! databases that it reads, in any order. The functions of `laws` state that words are one command at most, that they
//! never are a command and a fault, and that the values of `score` have their forms. Nothing here takes memory:
//! values and faults borrow from the words.
#![tactic(auto)]

mod command;
mod database_command;
mod database_files;
mod database_option;
mod database_words;
mod given_define;
mod given_defines;
mod given_drawing;
mod given_drawings;
mod given_machine;
mod given_machines;
mod given_values;
mod given_words;
mod laws;
mod lcov_words;
mod merge_words;
mod option_values;
mod point_addresses;
mod point_words;
mod rank_words;
mod read_selfrun;
mod report_level;
mod report_metrics;
mod report_words;
mod score_option;
mod score_words;
mod selfrun_words;
mod source_files;
mod state_names;
mod usage_fault;
mod value_form;
mod words_left;

pub use command::{Command, read_command};
pub use database_command::DatabaseCommand;
pub use database_files::DatabaseFiles;
pub use database_option::DatabaseOption;
pub use given_define::GivenDefine;
pub use given_defines::GivenDefines;
pub use given_drawing::GivenDrawing;
pub use given_drawings::GivenDrawings;
pub use given_machine::GivenMachine;
pub use given_machines::GivenMachines;
pub use laws::{
    commands_have_no_fault, values_have_their_forms, words_are_one_command, words_have_one_fault,
};
pub use lcov_words::LcovWords;
pub use merge_words::MergeWords;
pub use point_addresses::PointAddresses;
pub use point_words::PointWords;
pub use rank_words::RankWords;
pub use report_level::ReportLevel;
pub use report_metrics::ReportMetrics;
pub use report_words::ReportWords;
pub use score_option::ScoreOption;
pub use score_words::ScoreWords;
pub use selfrun_words::SelfrunWords;
pub use source_files::SourceFiles;
pub use state_names::StateNames;
pub use usage_fault::UsageFault;
pub use value_form::{is_file_name, is_instance_path, is_module_name};
