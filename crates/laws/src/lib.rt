// What a stress law is, what is shown of the two-line law's definition, and the law through given points.
#![tactic(auto)]

pub mod law;
pub mod point;
pub mod point_law;
pub mod up_to;
pub mod worked;
