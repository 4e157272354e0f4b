//! The top call of `permspec`: a script from a source, its answers to a sink.
//!
//! [`run`] reads the words of the command line and the whole source, or with `--demo` a script of its own, and writes the
//! text due, which `specs/Due.antt` defines. With `--check` the source holds a claimed system, and the text due says whether
//! it is exact, as `specs/Checked.antt` defines. The clauses of `run` say what each status means for every source and sink,
//! whatever they do.
#![tactic(auto)]

mod answers;
mod checking;
#[cfg(test)]
mod checks;
mod command;
mod draws;
#[cfg(test)]
mod faults;
mod header;
mod listing;
mod members;
mod options;
mod ranks;
mod reading;
#[cfg(test)]
mod recurrences;
mod session;
mod solving;
mod statistics;
mod status;
mod stop;
mod subject;
#[cfg(test)]
mod tests;
mod texts;
mod top;
mod verdicts;
mod waiting;

pub use options::{Options, WordsError, read_words};
pub use solving::{SettledClass, Solved, solve};
pub use status::Status;
pub use subject::{Subject, United};
pub use top::run;
