// Cards of materials, from written over checked to reduced, and the two-line law that a reduced card makes.
#![tactic(auto)]

mod check;
mod figures;
mod reduce;
pub mod states;
#[cfg(test)]
mod tests;
pub mod two_line;
pub mod written;
