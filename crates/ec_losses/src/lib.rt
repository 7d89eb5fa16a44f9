//! Laws that tie wires to the world: what is lost on a wire is lost in the world, and AL states that are read are the world's.
#![tactic(auto)]

pub mod laws;
