//! The parts of the journals of a house that stand in a folder: how a program reads them.
#![tactic(auto)]

mod folder;

pub use folder::{gathered, has_file, house_in, part_files, unopened};
