// Drawings: plans with a least valid shape, and how they are drawn.
#![tactic(auto)]

pub mod bends;
pub mod drawing;
pub mod drawings;
mod filling;
mod pricing;
pub mod readers;
mod routing;
