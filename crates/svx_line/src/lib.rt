// A line of a survey text: its tokens, its fields and what it means.
#![tactic(auto)]

pub mod fields;
pub mod lexer;
pub mod line;
pub mod offer;
pub mod part;
pub mod token;
