// A section of fibres, and what it answers at a curvature.
#![tactic(auto)]

mod ask;
mod curvature;
pub mod ends;
pub mod fibre;
mod figures;
mod force;
mod load;
mod plane;
mod range;
mod row;
pub mod section;
#[cfg(test)]
mod tests;
pub mod truths;
pub mod worked;
