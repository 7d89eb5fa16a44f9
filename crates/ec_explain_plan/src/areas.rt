//! The memory that the sync managers of a slave take.
use crate::places::SlaveAt;
use ec_device::{PINS, PINS_BYTES, PINS_INSIDE};
use ec_diagnostic::Counted;
use ec_regs::registers::{RAM_END, RAM_START};
use ec_table::Direction;
use std::fmt;

/// The register of the pins: the outputs of a device without a processor, four bytes.
const OUTPUT_REGISTER: usize = PINS as usize;
/// The first address after it.
const OUTPUT_REGISTER_END: usize = (PINS + PINS_BYTES) as usize;
/// Where such outputs lie inside a slave. No other area of its type begins there.
pub const REGISTER_INSIDE: usize = PINS_INSIDE as usize;

/// What an area holds. It is printed in words.
#[derive(Clone, Copy, PartialEq, Eq)]
pub enum Content {
    ReceiveMailbox,
    SendMailbox,
    Outputs,
    Inputs,
}

/// What the areas of a slave hold, in order.
static CONTENTS: [Content; 4] = [
    Content::ReceiveMailbox,
    Content::SendMailbox,
    Content::Outputs,
    Content::Inputs,
];

/// An area of a slave's memory that a sync manager governs. It is printed with its first and last address,
/// and with the length of its value.
#[derive(Clone, Copy)]
pub struct Area {
    /// What lies there.
    pub content: Content,
    /// Its first address.
    start: usize,
    /// Its length in bytes.
    span: usize,
    /// The length of its value in bytes: a third of `span` if it has three buffers.
    length: usize,
    /// Whether its slave is hardware with outputs in the output register.
    has_pins: bool,
}

impl Area {
    /// Whether it holds outputs, and begins in the output register.
    pub fn is_output_register(&self) -> bool {
        self.content == Content::Outputs
            && (OUTPUT_REGISTER..OUTPUT_REGISTER_END).contains(&self.start)
    }

    /// The area of a slave that holds this content, if it has one.
    fn of(at: &SlaveAt<'_>, content: Content) -> Option<Area> {
        let process = &at.kind.process;
        let area = match content {
            Content::Outputs => {
                Area::process(content, process.out_start, at.bits(Direction::Out))
            }
            Content::Inputs => Area::process(content, process.in_start, at.bits(Direction::In)),
            _ => Area::mailbox(at, content),
        }?;
        match &at.kind.hardware {
            Some(hardware) if hardware.has_pins => Some(area.beside_pins()),
            _ => Some(area),
        }
    }

    /// The same area of hardware with outputs in the output register; those have one buffer.
    fn beside_pins(self) -> Area {
        let is_register = self.is_output_register();
        Area {
            span: if is_register { self.length } else { self.span },
            has_pins: true,
            ..self
        }
    }

    /// The area of a mailbox, if the slave has mailboxes.
    fn mailbox(at: &SlaveAt<'_>, content: Content) -> Option<Area> {
        let mailbox = at.kind.mailbox?;
        let (start, size) = match content {
            Content::ReceiveMailbox => (mailbox.receive_start, mailbox.receive_size),
            _ => (mailbox.send_start, mailbox.send_size),
        };
        let length = usize::from(size);
        Some(Area {
            content,
            start: usize::from(start),
            span: length,
            length,
            has_pins: false,
        })
    }

    /// The area of the process data of a direction, if they have bits.
    fn process(content: Content, start: u16, bits: usize) -> Option<Area> {
        let length = bits.div_ceil(8);
        if length == 0 {
            return None;
        }
        Some(Area {
            content,
            start: usize::from(start),
            span: length.saturating_mul(3),
            length,
            has_pins: false,
        })
    }

    /// The first address behind it.
    fn end(&self) -> usize {
        self.start.saturating_add(self.span)
    }

    /// Where it begins and ends inside the slave: outputs in the output register lie elsewhere, with three buffers.
    fn inside(&self) -> (usize, usize) {
        if self.has_pins && self.is_output_register() {
            let place = self.start.saturating_sub(OUTPUT_REGISTER);
            let start = REGISTER_INSIDE.saturating_add(place);
            return (start, start.saturating_add(self.length.saturating_mul(3)));
        }
        (self.start, self.end())
    }

    /// Whether it begins in the RAM, of a slave whose outputs lie there in place of the output register.
    pub fn is_register_inside(&self) -> bool {
        self.has_pins && self.start >= REGISTER_INSIDE && self.end() <= RAM_END
    }

    /// Whether it shares an address with another.
    fn meets(&self, other: &Area) -> bool {
        let ((start, end), (other_start, other_end)) = (self.inside(), other.inside());
        start < other_end && other_start < end
    }

    /// Whether it isn't where it can be: in the RAM, or outputs of hardware in the output register.
    fn leaves(&self) -> bool {
        if self.has_pins && self.is_output_register() {
            return OUTPUT_REGISTER_END < self.end();
        }
        self.start < RAM_START || RAM_END < self.end() || self.is_register_inside()
    }
}

impl Content {
    /// The key of a type that states where such an area begins, and the place in the list there, if it is a list.
    pub fn key(self) -> (&'static str, Option<usize>) {
        match self {
            Content::ReceiveMailbox => ("mailbox", Some(0)),
            Content::SendMailbox => ("mailbox", Some(2)),
            Content::Outputs => ("out_start", None),
            Content::Inputs => ("in_start", None),
        }
    }
}

impl fmt::Display for Content {
    fn fmt<W: fmt::Write>(&self, f: &mut fmt::Formatter<W>) -> fmt::Result {
        f.write_str(match self {
            Content::ReceiveMailbox => "receive mailbox",
            Content::SendMailbox => "send mailbox",
            Content::Outputs => "outputs",
            Content::Inputs => "inputs",
        })
    }
}

impl fmt::Display for Area {
    fn fmt<W: fmt::Write>(&self, f: &mut fmt::Formatter<W>) -> fmt::Result {
        let (content, start, last) = (self.content, self.start, self.end().saturating_sub(1));
        let length = Counted(self.length, "byte");
        let is_whole = self.span == self.length;
        let buffers = if is_whole { "" } else { "three buffers of " };
        write!(
            f,
            "{content}: 0x{start:04X} to 0x{last:04X}, {buffers}{length}"
        )
    }
}

/// The first area of a slave that leaves the RAM.
pub fn first_outside(at: &SlaveAt<'_>) -> Option<Area> {
    for content in &CONTENTS {
        if let Some(area) = Area::of(at, *content)
            && area.leaves()
        {
            return Some(area);
        }
    }
    None
}

/// The first two areas of a slave that share an address.
pub fn first_met(at: &SlaveAt<'_>) -> Option<(Area, Area)> {
    for (index, content) in CONTENTS.iter().enumerate() {
        if let Some(one) = Area::of(at, *content)
            && let Some(other) = met_behind(at, &one, index)
        {
            return Some((one, other));
        }
    }
    None
}

/// The first area, of the contents behind a place, that shares an address with another.
fn met_behind(at: &SlaveAt<'_>, one: &Area, index: usize) -> Option<Area> {
    for content in CONTENTS.iter().skip(index.saturating_add(1)) {
        if let Some(other) = Area::of(at, *content)
            && one.meets(&other)
        {
            return Some(other);
        }
    }
    None
}

/// The first address of the RAM where an area of a slave would meet none of the others.
pub fn first_free(at: &SlaveAt<'_>, moved: &Area) -> Option<usize> {
    let mut least = free_from(at, moved, RAM_START);
    for content in &CONTENTS {
        if let Some(area) = Area::of(at, *content)
            && let Some(start) = free_from(at, moved, area.end())
        {
            least = Some(least.unwrap_or(start).min(start));
        }
    }
    least
}

/// The address `start`, if an area could begin there, in the RAM, and meet no other area of the slave.
fn free_from(at: &SlaveAt<'_>, moved: &Area, start: usize) -> Option<usize> {
    let there = Area { start, ..*moved };
    if there.leaves() || meets_other(at, &there) {
        return None;
    }
    Some(start)
}

/// Whether an area meets one of a slave that holds something else.
fn meets_other(at: &SlaveAt<'_>, moved: &Area) -> bool {
    for content in &CONTENTS {
        if *content != moved.content
            && let Some(area) = Area::of(at, *content)
            && area.meets(moved)
        {
            return true;
        }
    }
    false
}
