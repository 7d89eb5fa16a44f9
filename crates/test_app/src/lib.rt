//! The program and its parts, over streams that ask and fail, and sockets. All by the public calls of the crates.
#![tactic(auto)]

#[cfg(test)]
mod compare;
#[cfg(test)]
mod live;
#[cfg(test)]
mod loops;
#[cfg(test)]
mod names;
#[cfg(test)]
mod runs;
#[cfg(test)]
mod streams;
#[cfg(test)]
mod translate;
