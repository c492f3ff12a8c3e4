// What the desk reads and writes, but for the machine: lines, words, values, the commands and what is told of them, rows, files.
#![tactic(auto)]

pub mod arguments;
pub mod commands;
pub mod files;
pub mod lines;
pub mod paths;
pub mod rows;
pub mod values;
pub mod version;
pub mod words;
