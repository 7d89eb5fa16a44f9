//! What people are told, lines with a master over wires of memory, and runs of worlds. All by the public calls of the crates.
#![tactic(auto)]

#[cfg(test)]
mod annotate;
#[cfg(test)]
mod compare;
#[cfg(test)]
mod diagnostic;
#[cfg(test)]
mod explain;
#[cfg(test)]
mod master;
#[cfg(test)]
mod worlds;
