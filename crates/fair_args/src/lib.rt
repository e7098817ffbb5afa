//! What the programs share: the flags and files of their command lines, how words are read, why words ask for nothing, and what a program
//! may do to its system.
#![tactic(auto)]

pub mod asks;
pub mod commands;
pub mod found;
pub mod laws;
pub mod system;
pub mod unasked;

pub use asks::{Asked, Wanted, parse};
pub use commands::{
    FILE, command_named, program_named, with_command, with_file, with_flag, with_option, with_word,
};
pub use found::{flag_is_given, matches_of, subcommand_of, word_of};
pub use system::{Console, ReadOnly, ReadOnlyFiles, words_of};
pub use unasked::Unasked;
