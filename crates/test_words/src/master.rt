//! What lines print over wires of memory that work and that fail.
mod lines;
