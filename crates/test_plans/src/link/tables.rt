//! Tables, the image of each, and what errors say.
use ec_link::{LinkError, LinkFault, MachineError};
use ec_table::{Fault, TableError};

/// The table of `examples/three_slaves.toml`.
pub const THREE_SLAVES: &str = test_data::THREE_SLAVES;

/// The same, a line for each list, with the second slave in a sync unit of its own.
pub const TWO_UNITS: &str = test_data::SHORT_TWO_UNITS;

/// The image of both: outputs and inputs one after another, and the bits of slaves that are linked with them.
pub const IMAGE: &str = "\
out 16 in 20
Variable { direction: Out, from: 0, bits: 4, signed: false }
Variable { direction: Out, from: 4, bits: 12, signed: false }
Variable { direction: In, from: 0, bits: 4, signed: false }
Variable { direction: In, from: 4, bits: 16, signed: false }
Link { image: 0, slave: 0, object_bit: 0, count: 4 }
Link { image: 4, slave: 2, object_bit: 0, count: 12 }
Link { image: 0, slave: 1, object_bit: 0, count: 4 }
Link { image: 4, slave: 2, object_bit: 0, count: 16 }
";

/// The image of a table without variables.
pub const NO_IMAGE: &str = "out 0 in 0\n";

/// What is said of an error, of each kind.
pub const SAID: [(LinkError, &str); 12] = [
    (LinkError::Memory, "out of memory"),
    (
        LinkError::Refused(LinkFault::WrongDirection(7)),
        "link 7: the slave assigns the entry in the other direction",
    ),
    (
        LinkError::Refused(LinkFault::NoEntry(7)),
        "link 7: the slave assigns no such entry",
    ),
    (
        LinkError::Refused(LinkFault::OutsideEntry(7)),
        "link 7: bits past the entry or the variable",
    ),
    (
        LinkError::Refused(LinkFault::LinkedTwice(7)),
        "link 7: a bit is linked twice",
    ),
    (
        LinkError::Refused(LinkFault::EntryTwice(7)),
        "slave 7: an entry is assigned twice",
    ),
    (
        LinkError::Refused(LinkFault::TooManyBits(7)),
        "slave 7: over 2048 bits in a direction",
    ),
    (
        LinkError::Refused(LinkFault::TooManySlaves(65)),
        "65 slaves, and 64 are the most",
    ),
    (
        LinkError::Refused(LinkFault::TooManyParts(33)),
        "33 parts, and 32 are the most",
    ),
    (
        LinkError::Refused(LinkFault::AreasOverlap(7)),
        "slave 7: two areas overlap",
    ),
    (
        LinkError::Refused(LinkFault::OutsideRam(7)),
        "slave 7: an area leaves the RAM",
    ),
    (
        LinkError::Refused(LinkFault::SplitVariable(7)),
        "variable 7: links from two sync units",
    ),
];

/// What is said of a text that states no machine: what is wrong with its table, or with the plan of that.
pub const SAID_OF_TEXTS: [(MachineError, &str); 2] = [
    (
        MachineError::Table(TableError::Refused(Fault::Toml)),
        "the text is not TOML",
    ),
    (
        MachineError::Link(LinkError::Refused(LinkFault::NoEntry(7))),
        "link 7: the slave assigns no such entry",
    ),
];
