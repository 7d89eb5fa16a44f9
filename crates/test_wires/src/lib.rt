//! Wires that work and that fail, by the public calls of their crates.
#![tactic(auto)]

#[cfg(test)]
mod card;
#[cfg(test)]
mod rows;
#[cfg(test)]
mod wire;
