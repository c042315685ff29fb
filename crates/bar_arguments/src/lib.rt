//! The arguments of a command line, parsed by `clap`.
#![tactic(auto)]

mod laws;
mod numbers;
mod options;

pub use laws::{taken_words_have_values, worked_lines};
pub use numbers::{id_of, number_in};
pub use options::{WordsFault, option_values};
