//! The words of a command line, and the commands that need no served volume.
#![tactic(auto)]

pub mod basic_commands;
pub mod command_line;
