//! Whether a payload answers a question, and what a slave says in it.
ghost use Rattle.std.specs.Prelude.{◌≡◌, ◌↔◌, Bool, true, length, MatchOption};
ghost use Rattle.ec_frame.specs.Datagram.{Datagram, IsDatagram, IsSpelling, spelling};
ghost use Rattle.ec_frame.specs.Frame.{Payload, IsFrame};
ghost use Rattle.ec_frame.specs.Names.{shape};
ghost use Rattle.ec_asking.specs.Answered.{IsAnswerAt, question_name};
ghost use Rattle.ec_asking.specs.Questions.{IsAnswerTo, told_by, told_in};

use crate::question::{NUMBER, Question};
use byteorder::{ByteOrder, LittleEndian};
use ec_frame::field::NAME_LEN;
use ec_frame::{
    Command, DatagramSpan, Datagrams, FrameName, Header, check, index_of, read_counter, read_data,
};
use ec_regs::registers::{AL_STATUS, AL_STATUS_CODE};

/// How many datagrams the frame of a question has: one that names the frame, and the one that asks.
const DATAGRAMS: usize = 2;

/// The offset in bytes of the AL status code from the AL status.
const CODE: usize = AL_STATUS_CODE - AL_STATUS;

/// The length in bytes from the AL status to the end of its code.
const STATUS_LEN: usize = CODE + 2;

/// What a slave says of its AL state (ETG.1000.6, "AL status", "AL status code").
#[derive(Clone, Copy, Debug, PartialEq, Eq, Drop)]
pub struct AlStatus {
    /// The AL status word: the state in bits 0 to 3, and an error in bit 4.
    pub word: u16,
    /// The AL status code.
    pub code: u16,
}

/// Takes a payload that came in. Returns `None` if it doesn't answer question number `count`. Else it returns what the slave says, which
/// is none if no slave answered, more than one did, or the question isn't `Status`.
pub fn take_answer(payload: &[u8], question: Question, count: u16) -> Option<Option<AlStatus>>
    ensures { MatchOption result
        ((p : Payload) → IsFrame payload.now p → IsAnswerTo question count p.datagrams → ⊥)
        (λ told. (p : Payload) × IsFrame payload.now p × IsAnswerTo question count p.datagrams × (told ≡ told_in p.datagrams)) }
{
    let span = answer_to(payload, question, count)?;
    Some(told_by(&payload[span.from..span.to]))
}

/// The bytes of the asking datagram in a payload that answers a question; none if it doesn't.
fn answer_to(payload: &[u8], question: Question, count: u16) -> Option<DatagramSpan>
    ensures { MatchOption result
        ((p : Payload) → IsFrame payload.now p → IsAnswerTo question count p.datagrams → ⊥)
        (λ span. IsAnswerAt payload.now question count span) }
{
    let has_two = is_pair(payload);
    if !has_two {
        return None;
    }
    let mut places = Datagrams::new(payload);
    let name = places.next_place(payload)?;
    let answer = places.next_place(payload)?;
    let first = &payload[name.from..name.to];
    let second = &payload[answer.from..answer.to];
    let command = question.command();
    let bytes = question.content().len();
    let is_naming = has_shape(first, Command::Nop, NAME_LEN);
    let is_named = is_name(first, count);
    let is_answer = has_shape(second, command, bytes);
    if !is_naming {
        return None;
    }
    if !is_named {
        return None;
    }
    if !is_answer {
        return None;
    }
    Some(answer)
}

/// Whether a payload is a frame of two datagrams.
fn is_pair(payload: &[u8]) -> bool
    ensures { (result ≡ true) ↔ ((p : Payload) × IsFrame payload.now p × (length p.datagrams ≡ 2)) }
{
    match check(payload) {
        Ok(count) => count == DATAGRAMS,
        Err(_) => false,
    }
}

/// Whether the data of a datagram are the name of question number `count`.
fn is_name(part: &[u8], count: u16) -> bool
    requires { IsSpelling part.now }
    ensures { (more : Bool) (d : Datagram) → IsDatagram d → part.now ≡ spelling more d
        → (result ≡ true) ↔ (d.data_bytes ≡ question_name count) }
{
    let name = FrameName {
        number: NUMBER,
        part: count,
    };
    read_data(part) == name.bytes().as_slice()
}

/// Whether a datagram has the index of a question, this command, and so many bytes of data.
fn has_shape(part: &[u8], command: Command, bytes: usize) -> bool
    requires { IsSpelling part.now }
    ensures { (more : Bool) (d : Datagram) → IsDatagram d → part.now ≡ spelling more d
        → (result ≡ true) ↔ (shape d ≡ record { command = command; index = 255; bytes = bytes }) }
{
    let header = Header::read(part);
    header.command == command
        && header.index == index_of(NUMBER)
        && header.data_length as usize == bytes
}

/// What a slave says in the asking datagram of an answer.
fn told_by(part: &[u8]) -> Option<AlStatus>
    requires { IsSpelling part.now }
    ensures { (more : Bool) (d : Datagram) → IsDatagram d → part.now ≡ spelling more d → result ≡ told_by d }
{
    let data = read_data(part);
    if read_counter(part) != 1 || data.len() != STATUS_LEN {
        return None;
    }
    Some(AlStatus {
        word: LittleEndian::read_u16(data),
        code: LittleEndian::read_u16(&data[CODE..]),
    })
}
