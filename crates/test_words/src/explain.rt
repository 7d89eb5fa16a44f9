//! Refusals, and the explanation of each.
mod machine;
mod real;
mod started;
