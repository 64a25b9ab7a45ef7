// Kits: laws by number, how kits are joined, and the strain at which a law of a kit reaches a stress.
#![tactic(auto)]

pub mod joined;
pub mod kit;
pub mod list;
pub mod reach;
pub mod single;
#[cfg(test)]
mod tests;
