//! Builds frames, datagram by datagram.
ghost use Rattle.std.specs.Prelude.{◌≡◌, ◌≤◌, ◌<◌, ◌+◌, ◌∷◌, ◌++◌, ◌^◌, [], ℕ, List, length, slice_index};
ghost use Rattle.std.specs.Prelude.{OnOk, OnErr};
ghost use Rattle.byteorder.specs.Endian.{little_bytes};
ghost use Rattle.ec_frame.specs.declared.command.Command.{Command};
ghost use Rattle.ec_frame.specs.Built.{IsBuilt, built_datagrams, ten_bytes};
ghost use Rattle.ec_frame.specs.Building.{bare_payload, new_datagram};
ghost use Rattle.ec_frame.specs.Commands.{number_of};
ghost use Rattle.ec_frame.specs.Datagram.{Datagram, joined};
ghost use Rattle.ec_frame.specs.Frame.{IsFrame};

use crate::command::Command;
use crate::field::{DATAGRAMS, FLAGS_HIGH, FRAME_HEADER_LEN, MAX_FRAME_LEN, MORE, OVERHEAD};
use arrayvec::ArrayVec;
use byteorder::{ByteOrder, LittleEndian};
use std::marker::Model;
use thiserror::Error;

/// The frame of an EtherCAT UDP datagram: two bytes of header, and at most 1470 of datagrams.
pub type Frame = ArrayVec<u8, MAX_FRAME_LEN>;

/// The datagram doesn't fit beside those that are there: all datagrams have at most 1470 bytes.
#[derive(Clone, Copy, Debug, PartialEq, Eq, Drop, Error)]
#[error("the datagram doesn't fit in the frame")]
pub struct Full;

impl Full {
    /// The number of the refusal, as the program prints it.
    pub fn number(self) -> u8
        ensures { result ≡ 8 }
    {
        8
    }
}

/// A datagram as a master sends it, with counter 0.
#[derive(Clone, Copy)]
pub struct Sent<'a> {
    /// The command.
    pub command: Command,
    /// The index, which slaves leave as it is.
    pub index: u8,
    /// The four address bytes.
    pub address: u32,
    /// The data.
    pub content: &'a [u8],
}

/// Writes the frame of two datagrams in place of what was in `frame`, with all reserved bits 0, as a builder of the two
/// does, but without its own room for the longest frame. Both together have at most 1470 bytes.
pub fn write_pair(frame: &mut Frame, first: Sent, second: Sent)
    requires { 24 + length first.content.now + length second.content.now ≤ 1470 }
    ensures { IsFrame frame.new.items (bare_payload (new_datagram first.entry.command first.entry.index first.entry.address first.entry.content.now
        ∷ new_datagram second.entry.command second.entry.index second.entry.address second.entry.content.now ∷ [])) }
{
    frame.clear();
    append(frame, &[0, 0]);
    append_datagram(
        frame,
        first.command,
        first.index,
        first.address,
        first.content,
    );
    let last = frame.len();
    append_datagram(
        frame,
        second.command,
        second.index,
        second.address,
        second.content,
    );
    close(frame, last);
}

/// Builds a frame, datagram by datagram. In contracts a builder is the list of its datagrams.
#[derive(Drop)]
pub struct Builder {
    // the header's two bytes, and the datagrams, each with its more bit set
    frame: Frame,
    // where the last one begins
    last: usize,
}

impl Model for Builder {
    ghost Value = { List Datagram };

    ghost view = { λ b. built_datagrams b.frame.items };

    ghost invariant = { λ b. IsBuilt b.frame.items b.last (built_datagrams b.frame.items) };
}

impl Builder {
    /// A builder without datagrams.
    pub fn new() -> Self
        ensures { result ≡ [] }
    {
        let mut frame = Frame::new();
        frame.push(0);
        frame.push(0);
        Builder {
            frame,
            last: FRAME_HEADER_LEN,
        }
    }

    /// Appends a datagram with this data and counter 0. Returns `Full` and changes nothing if all
    /// datagrams together would be longer than 1470 bytes.
    pub fn add(
        &mut self,
        command: Command,
        index: u8,
        address: u32,
        content: &[u8],
    ) -> Result<(), Full>
        ensures ok { OnOk result (self.new ≡ self.old ++ new_datagram command index address content.now ∷ []) }
        ensures err { OnErr result (self.new ≡ self.old) }
        ensures fits { OnOk result (length (joined self.old) + 12 + length content.now ≤ 1470) }
        ensures full { OnErr result (1470 < length (joined self.old) + 12 + length content.now) }
    {
        let room = self.frame.remaining_capacity();
        if room < OVERHEAD || room - OVERHEAD < content.len() {
            return Err(Full);
        }
        self.last = self.frame.len();
        append_datagram(&mut self.frame, command, index, address, content);
        Ok(())
    }

    /// The frame of the datagrams added, with all reserved bits 0.
    pub fn finish(self) -> Frame
        requires { 0 < length self }
        ensures { IsFrame result.items (bare_payload self) }
    {
        let Builder { mut frame, last } = self;
        close(&mut frame, last);
        frame
    }

    /// Writes the frame of the datagrams added in place of what was in `frame`, with all reserved
    /// bits 0. It moves only the bytes of that frame, while `finish` moves the room for the
    /// longest.
    pub fn write(&self, frame: &mut Frame)
        requires { 0 < length self.now }
        ensures { IsFrame frame.new.items (bare_payload self.now) }
    {
        frame.clear();
        append(frame, self.frame.as_slice());
        close(frame, self.last);
    }
}

/// Writes the length of the datagrams into the header, and clears the more bit of the last.
fn close(frame: &mut Frame, last: usize)
    requires built { IsBuilt frame.old.items last (built_datagrams frame.old.items) }
    requires some { 0 < length (built_datagrams frame.old.items) }
    ensures { IsFrame frame.new.items (bare_payload (built_datagrams frame.old.items)) }
{
    let len = frame.len() - FRAME_HEADER_LEN;
    let bytes = frame.as_mut_slice();
    bytes[last + FLAGS_HIGH] -= (MORE >> 8) as u8;
    LittleEndian::write_u16(bytes, len as u16 + DATAGRAMS);
}

/// Appends a datagram with this data, counter 0 and its more bit set.
fn append_datagram(frame: &mut Frame, command: Command, index: u8, address: u32, content: &[u8])
    requires { length frame.old.items + 12 + length content.now ≤ 1472 }
    ensures bytes { frame.new.items ≡ ((frame.old.items ++ ten_bytes command index address (length content.now + 32768))
        ++ content.now) ++ (0 ∷ 0 ∷ []) }
    ensures fits { (index < 256) × (address < 2 ^ 32) × ((k : ℕ) → slice_index content.now k < 256) }
{
    let heading = heading_of(command, index, address, content.len() as u16 + MORE);
    append(frame, &heading);
    append(frame, content);
    append(frame, &[0, 0]);
}

fn append(frame: &mut Frame, bytes: &[u8])
    requires { length frame.old.items + length bytes.now ≤ 1472 }
    ensures { frame.new.items ≡ frame.old.items ++ bytes.now }
{
    let _ = frame.try_extend_from_slice(bytes);
}

/// The ten bytes before the data.
fn heading_of(command: Command, index: u8, address: u32, flags: u16) -> [u8; 10]
    ensures { result ≡ number_of command ∷ index ∷ little_bytes 4 address ++ little_bytes 2 flags
        ++ little_bytes 2 0 }
{
    let a = address.to_le_bytes();
    let f = flags.to_le_bytes();
    [
        command.number(),
        index,
        a[0],
        a[1],
        a[2],
        a[3],
        f[0],
        f[1],
        0,
        0,
    ]
}
