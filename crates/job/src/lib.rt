// A job: lines of text that are commands, what each does, and the line that it prints.
#![tactic(auto)]

pub mod command;
pub mod fault;
pub mod jobs;
pub mod material;
mod numbers;
pub mod printed;
pub mod read;
#[cfg(test)]
mod tests;
mod word;
