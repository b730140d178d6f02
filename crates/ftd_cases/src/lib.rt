//! What the definitions of the deposit machine say together: laws, each the contract of a function
//! with an empty body, and worked cases, whose values were worked out by hand.
#![tactic(auto)]

pub mod laws;
