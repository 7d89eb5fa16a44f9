//! Whether a payload answers the outstanding frame.

ghost use Rattle.std.specs.Prelude.{◌≡◌, ◌%◌, ◌↔◌, Bool, true, length, take, MatchOption};
ghost use Rattle.std.specs.Int.{to_le_bytes, w64};
ghost use Rattle.ec_frame.specs.Datagram.{Datagram, IsDatagram, IsSpelling, spelling};
ghost use Rattle.ec_frame.specs.Frame.{Payload, IsFrame};
ghost use Rattle.ec_start.specs.Doable.{IsDoable};
ghost use Rattle.ec_start.specs.Running.{shape};
ghost use Rattle.ec_start.specs.Answered.{Answers, IsAnswerIn};

use crate::action::Action;
use ec_frame::field::NAME_LEN;
use ec_frame::{Command, Datagrams, FrameName, Header, check, index_of, read_data};

/// How many datagrams a frame of a start-up has: one that names the frame, and the action's.
const DATAGRAMS: usize = 2;

/// The action's datagram, as bytes spell it, in a payload that answers the action's frame of this number; none if it doesn't.
/// An answer has the commands, the indices, the lengths, the order and the number of the frame.
pub fn answer_in<'a>(payload: &'a [u8], action: &Action, number: u64) -> Option<&'a [u8]>
    requires { IsDoable action.now }
    ensures { MatchOption result
        ((p : Payload) → IsFrame payload.now p → Answers action.now number p.datagrams → ⊥)
        (λ part. IsAnswerIn payload.now action.now number part.now) }
{
    let has_two = is_pair(payload);
    if !has_two {
        return None;
    }
    let mut datagrams = Datagrams::new(payload);
    let name = datagrams.next_part(payload)?;
    let answer = datagrams.next_part(payload)?;
    let command = action.command();
    let bytes = action.data_length();
    let is_named = has_shape(name, Command::Nop, number, NAME_LEN);
    let is_numbered = has_number(name, number);
    let is_answer = has_shape(answer, command, number, bytes);
    if !is_named {
        return None;
    }
    if !is_numbered {
        return None;
    }
    if !is_answer {
        return None;
    }
    Some(answer)
}

/// Whether a payload is a frame of two datagrams.
fn is_pair(payload: &[u8]) -> bool
    ensures { (result ≡ true) ↔ ((p : Payload) × IsFrame payload.now p × (length p.datagrams ≡ 2)) }
{
    match check(payload) {
        Ok(count) => count == DATAGRAMS,
        Err(_) => false,
    }
}

/// Whether the data of a datagram are a frame's name with this number.
fn has_number(part: &[u8], number: u64) -> bool
    requires { IsSpelling part.now }
    ensures { (more : Bool) (d : Datagram) → IsDatagram d → part.now ≡ spelling more d
        → (result ≡ true) ↔ ((length d.data_bytes ≡ 10) × (take 8 d.data_bytes ≡ to_le_bytes w64 number)) }
{
    match FrameName::read(read_data(part)) {
        Some(name) => name.number == number,
        None => false,
    }
}

/// Whether a datagram of a frame with this number has this command and so many bytes of data.
fn has_shape(part: &[u8], command: Command, number: u64, bytes: usize) -> bool
    requires { IsSpelling part.now }
    ensures { (more : Bool) (d : Datagram) → IsDatagram d → part.now ≡ spelling more d
        → (result ≡ true) ↔ (shape d ≡ record { command = command; index = number % 256; bytes = bytes }) }
{
    let header = Header::read(part);
    header.command == command
        && header.index == index_of(number)
        && header.data_length as usize == bytes
}
