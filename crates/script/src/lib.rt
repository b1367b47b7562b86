// Reads a script line by line: the lines of a text, the words of a line, and the command or opening that a line gives.
#![tactic(auto)]

pub mod commands;
mod cuts;
pub mod lines;
pub mod reader;
