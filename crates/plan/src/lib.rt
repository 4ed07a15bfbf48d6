// Plans: lists of legs that can be drawn, each with an outer side.
#![tactic(auto)]

pub mod planning;
pub mod plans;
pub mod readers;
pub mod turning;

pub use embedding::outer::OuterSide;
