//! Frames, their texts and captures, lines of an input, and what is seen of frames, each by the public calls of its crate.
#![tactic(auto)]

#[cfg(test)]
mod capture;
#[cfg(test)]
mod compare;
#[cfg(test)]
mod decode;
#[cfg(test)]
mod errors;
#[cfg(test)]
mod frame;
#[cfg(test)]
mod lines;
#[cfg(test)]
mod seen;
