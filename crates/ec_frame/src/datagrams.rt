//! A datagram that is lent where it stands in its frame, with readers and writers of its fields.
ghost use Rattle.std.specs.Prelude.{◌≡◌, ◌+◌, ◌<◌, ◌≤◌, ◌∷◌, ◌++◌, [], length, true};
ghost use Rattle.ec_frame.specs.Datagram.{IsDatagram, is_followed, spelling};
ghost use Rattle.ec_frame.specs.Fields.{header_of, with_address, with_command, with_counter, with_data, with_index, with_irq};
ghost use Rattle.ec_frame.specs.Frame.{Payload};
ghost use Rattle.ec_frame.specs.Lending.{Among, HasNext, IsAt, IsLending, IsLent, IsSomeLent, bytes_ahead, data_room, overwritten, written_as};

use crate::command::Command;
use crate::cursor::{DatagramSpan, Datagrams};
use crate::datagram::{Header, read_counter, read_data};
use crate::field;

/// A datagram where it stands in its frame. What is written into it stands there.
#[derive(Drop)]
pub struct Datagram<'a> {
    frame: &'a mut [u8],
    span: DatagramSpan,
}

impl Datagrams {
    /// Whether there is another datagram.
    pub fn has_next(&self) -> bool
        ensures ahead { (bytes : _) (p : Payload) (past : _) (ahead : _) → IsLending bytes self.now p past ahead → result ≡ is_followed ahead }
        ensures more { (bytes : _) (p : Payload) (past : _) (ahead : _) → IsLending bytes self.now p past ahead → result ≡ true → HasNext bytes self.now }
    {
        self.at != self.end
    }

    /// The next datagram.
    pub fn next<'a>(&mut self, frame: &'a mut [u8]) -> Datagram<'a>
        requires { HasNext frame.old self.old }
        ensures same_reference { result.frame.ghost_name ≡ frame.entry.ghost_name }
        ensures some { IsSomeLent result }
        ensures smaller { bytes_ahead self.new < bytes_ahead self.old }
        ensures lent { (s : Among) → IsLending frame.entry.now self.old s.payload s.past (s.datagram ∷ s.ahead) → IsLent result s }
        ensures passed { (s : Among) (e : _) (bytes : _) → IsLending frame.entry.now self.old s.payload s.past (s.datagram ∷ s.ahead)
            → IsAt bytes result.span (written_as s e) → IsLending bytes self.new s.payload (s.past ++ e ∷ []) s.ahead }
    {
        let span = self.next_place(frame).unwrap();
        Datagram { frame, span }
    }
}

impl<'a> Datagram<'a> {
    /// The bytes that spell it.
    pub fn part(&self) -> &[u8]
        requires { IsSomeLent self.now }
        ensures { (s : Among) → IsLent self.now s → result.now ≡ spelling (is_followed s.ahead) s.datagram }
    {
        let DatagramSpan { from, to } = self.span;
        let frame = &*self.frame;
        &frame[from..to]
    }

    /// What stands before its data.
    pub fn header(&self) -> Header
        requires { IsSomeLent self.now }
        ensures { (s : Among) → IsLent self.now s → result ≡ header_of (is_followed s.ahead) s.datagram }
    {
        Header::read(self.part())
    }

    /// Its data.
    pub fn data(&self) -> &[u8]
        requires { IsSomeLent self.now }
        ensures value { (s : Among) → IsLent self.now s → result.now ≡ s.datagram.data_bytes }
        ensures room { length result.now ≡ data_room self.now }
    {
        read_data(self.part())
    }

    /// Its working counter.
    pub fn counter(&self) -> u16
        requires { IsSomeLent self.now }
        ensures { (s : Among) → IsLent self.now s → result ≡ s.datagram.counter }
    {
        read_counter(self.part())
    }

    /// Writes its command.
    pub fn set_command(&mut self, command: Command)
        requires { IsSomeLent self.old }
        ensures same_reference { self.new.frame.ghost_name ≡ self.old.frame.ghost_name }
        ensures same_place { self.new.span ≡ self.old.span }
        ensures some { IsSomeLent self.new }
        ensures written { (s : Among) → IsLent self.old s → IsLent self.new (written_as s (with_command s.datagram command)) }
    {
        self.put(field::COMMAND, &[command.number()]);
    }

    /// Writes its index.
    pub fn set_index(&mut self, index: u8)
        requires { IsSomeLent self.old }
        ensures same_reference { self.new.frame.ghost_name ≡ self.old.frame.ghost_name }
        ensures same_place { self.new.span ≡ self.old.span }
        ensures some { IsSomeLent self.new }
        ensures written { (s : Among) → IsLent self.old s → IsLent self.new (written_as s (with_index s.datagram index)) }
    {
        self.put(field::INDEX, &[index]);
    }

    /// Writes its four address bytes.
    pub fn set_address(&mut self, address: u32)
        requires { IsSomeLent self.old }
        ensures same_reference { self.new.frame.ghost_name ≡ self.old.frame.ghost_name }
        ensures same_place { self.new.span ≡ self.old.span }
        ensures some { IsSomeLent self.new }
        ensures written { (s : Among) → IsLent self.old s → IsLent self.new (written_as s (with_address s.datagram address)) }
    {
        self.put(field::ADDRESS, &address.to_le_bytes());
    }

    /// Writes its event request word.
    pub fn set_irq(&mut self, irq: u16)
        requires { IsSomeLent self.old }
        ensures same_reference { self.new.frame.ghost_name ≡ self.old.frame.ghost_name }
        ensures same_place { self.new.span ≡ self.old.span }
        ensures some { IsSomeLent self.new }
        ensures written { (s : Among) → IsLent self.old s → IsLent self.new (written_as s (with_irq s.datagram irq)) }
    {
        self.put(field::IRQ, &irq.to_le_bytes());
    }

    /// Writes its data, which keep their length.
    pub fn set_data(&mut self, content: &[u8])
        requires lent { IsSomeLent self.old }
        requires same_length { length content.now ≡ data_room self.old }
        ensures same_reference { self.new.frame.ghost_name ≡ self.old.frame.ghost_name }
        ensures same_place { self.new.span ≡ self.old.span }
        ensures some { IsSomeLent self.new }
        ensures written { (s : Among) → IsLent self.old s → IsLent self.new (written_as s (with_data s.datagram content.now)) }
    {
        self.put(field::HEADER_LEN, content);
    }

    /// Writes its working counter.
    pub fn set_counter(&mut self, counter: u16)
        requires { IsSomeLent self.old }
        ensures same_reference { self.new.frame.ghost_name ≡ self.old.frame.ghost_name }
        ensures same_place { self.new.span ≡ self.old.span }
        ensures some { IsSomeLent self.new }
        ensures written { (s : Among) → IsLent self.old s → IsLent self.new (written_as s (with_counter s.datagram counter)) }
    {
        let at = self.part().len() - field::COUNTER_LEN;
        self.put(at, &counter.to_le_bytes());
    }

    /// Writes bytes over those of its spelling, from byte `at` on, and leaves a datagram of the same length.
    fn put(&mut self, at: usize, bytes: &[u8])
        requires { (s : Among) × IsLent self.old s × (at + length bytes.now ≤ 12 + length s.datagram.data_bytes) }
        ensures same_reference { self.new.frame.ghost_name ≡ self.old.frame.ghost_name }
        ensures same_place { self.new.span ≡ self.old.span }
        ensures written { (s : Among) (e : _) → IsLent self.old s → IsDatagram e → length e.data_bytes ≡ length s.datagram.data_bytes
            → overwritten (spelling (is_followed s.ahead) s.datagram) at bytes.now ≡ spelling (is_followed s.ahead) e → IsLent self.new (written_as s e) }
    {
        let DatagramSpan { from, to } = self.span;
        let frame = &mut *self.frame;
        let part = &mut frame[from..to];
        part[at..at + bytes.len()].copy_from_slice(bytes);
    }
}
