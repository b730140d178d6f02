//! What follows of the hints below refusals: laws alone.
#![tactic(auto)]

pub mod laws;
