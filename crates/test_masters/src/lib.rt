//! Frames past slaves in a row, start-ups over them, and cycles of a master, each by the public calls of its crate.
#![tactic(auto)]

#[cfg(test)]
mod bringup;
#[cfg(test)]
mod cycle;
#[cfg(test)]
mod lines;
#[cfg(test)]
mod rings;
