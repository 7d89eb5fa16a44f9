//! The bytes of a slave's replies, with the name behind those that send it by a normal transfer.

ghost use Rattle.std.specs.Prelude.{◌≡◌, ◌≤◌, ◌+◌, length, IfSome};
ghost use Rattle.std.specs.Option.{option_copied};
ghost use Rattle.ec_coe.specs.Messages.{IsMessage, message_length};
ghost use Rattle.ec_coe.specs.ReplyBytes.{fitting_name as fitting_name_of, letters_behind as letters_behind_of, message_with as message_with_letters, reply_bytes as reply_bytes_of};

use crate::bytes::{append, gathered};
use crate::dictionary::Dictionary;
use crate::face::has_room;
use crate::message::{BYTES_AFTER_HEADER, Message, NORMAL_UPLOAD, SdoCommand};
use arrayvec::ArrayVec;

/// The bytes of a reply: those of a message, and at most 32 letters.
pub type ReplyBytes = ArrayVec<u8, 48>;

impl Dictionary {
    /// The bytes of a reply of the slave in a mailbox of `room` bytes: those of the message, and behind a normal upload
    /// response the name, which the mailbox header's length counts (ETG.1000.6, "Upload SDO normal response"). If the name
    /// doesn't fit, the message is alone. The message must be one that bytes can spell, as
    /// `Message::bytes` says.
    #[tactic(auto, unfolding(crate::specs::ReplyBytes::reply_bytes))]
    pub fn reply_bytes(&self, room: usize, reply: &Message) -> ReplyBytes
        requires { IsMessage reply.now }
        ensures bytes { result.items ≡ reply_bytes_of self.now room reply.now }
        ensures fits { 16 ≤ room → length result.items ≤ room }
    {
        match self.letters_behind(room, reply.command) {
            Some(letters) => message_with(reply, letters),
            None => gathered(&reply.bytes()),
        }
    }

    /// The letters that follow a message with this command.
    fn letters_behind(&self, room: usize, command: SdoCommand) -> Option<&[u8]>
        ensures value { option_copied result ≡ letters_behind_of self.now.kind.face room command }
        ensures short { IfSome result (λ name. length name.now ≤ 32) }
        ensures fits { IfSome result (λ name. message_length + length name.now ≤ room) }
    {
        match command {
            SdoCommand::Other(NORMAL_UPLOAD) => self.fitting_name(room),
            _ => None,
        }
    }

    /// The name that the slave shows, if its letters fit a mailbox of `room` bytes behind a message.
    fn fitting_name(&self, room: usize) -> Option<&[u8]>
        ensures value { option_copied result ≡ fitting_name_of self.now.kind.face room }
        ensures short { IfSome result (λ name. length name.now ≤ 32) }
        ensures fits { IfSome result (λ name. message_length + length name.now ≤ room) }
    {
        let name = self.kind().face()?.name.as_slice();
        if has_room(name, room) {
            Some(name)
        } else {
            None
        }
    }
}

/// The bytes of a message with letters behind it.
fn message_with(message: &Message, letters: &[u8]) -> ReplyBytes
    requires message { IsMessage message.now }
    requires short { length letters.now ≤ 32 }
    ensures { result.items ≡ message_with_letters message.now letters.now }
{
    let mut head = message.bytes();
    head[0] = BYTES_AFTER_HEADER as u8 + letters.len() as u8;
    let mut bytes = gathered(&head);
    append(&mut bytes, letters);
    bytes
}
