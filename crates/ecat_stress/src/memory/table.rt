//! The table with three slaves, and what is made of it before a function is called.

/// Three slaves: 4 outputs; 4 inputs; 12 outputs and 16 inputs behind mailboxes.
pub const TABLE: &str = test_data::SHORT_THREE_SLAVES;

/// Four lines and an empty one.
pub const SCRIPT: &str = "ready\nset a 10\n\ncycle\nshow\n";
