// Reads a question about where keys live, `POLICY MEMBERS COPIES KEY...`, and writes a line for each key.
#![tactic(auto)]

pub mod answer;
pub mod reading;
pub mod words;
