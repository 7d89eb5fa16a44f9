//! CoE messages as they stand on the wire.
mod full;
mod plain;
mod refusals;
mod steps;
