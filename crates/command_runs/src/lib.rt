//! A run of the program: from its words and the bytes of its files to what the command answers, the report and the status.
#![tactic(auto)]

mod answers;
mod call;
mod closed_bases;
mod files;
mod laws;
mod whole_run;

pub use answers::answer;
pub use call::call_files;
pub use closed_bases::{
    printed_bases_are_confirmed, printed_bases_are_sharp, reported_bases_are_confirmed,
    reports_are_read_back_as_bases, statement_reports_are_read_back_as_bases,
};
pub use laws::{
    a_call_is_answered_once, each_call_has_an_ending, reports_are_checked, reports_are_confirmed,
};
pub use whole_run::run;
