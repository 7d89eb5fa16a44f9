//! What a slave is made of, and what carries its process data, each part by the public calls of its crate.
#![tactic(auto)]

#[cfg(test)]
mod al;
#[cfg(test)]
mod bits;
#[cfg(test)]
mod device;
#[cfg(test)]
mod fmmu;
#[cfg(test)]
mod kinds;
#[cfg(test)]
mod regs;
#[cfg(test)]
mod rows;
#[cfg(test)]
mod runs;
#[cfg(test)]
mod sii;
#[cfg(test)]
mod sync;
