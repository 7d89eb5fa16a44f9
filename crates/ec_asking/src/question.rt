//! The questions, and the frame of each.
ghost use Rattle.std.specs.Prelude.{◌≡◌};
ghost use Rattle.ec_frame.specs.Building.{bare_payload};
ghost use Rattle.ec_frame.specs.Frame.{IsFrame};
ghost use Rattle.ec_asking.specs.Questions.{IsAskable, datagram_of, question_frame};

use ec_frame::{Command, Frame, FrameName, Sent, address_of, index_of, write_pair};
use ec_regs::registers::{AL_CONTROL, AL_STATUS};

/// The number of each question's frame: no start-up and no cycle has a frame with this number.
pub(crate) const NUMBER: u64 = u64::MAX;

/// The station address of slave 0; slave i has this plus i.
const FIRST_STATION: u16 = 0x1001;

/// INIT, with the acknowledgement of errors, as AL control has it.
const INIT: [u8; 2] = [0x11, 0];

/// Room for the AL status and its code.
const STATUS: [u8; 6] = [0; 6];

/// What a master asks.
#[derive(Clone, Copy, Debug, PartialEq, Eq, Drop)]
pub enum Question {
    /// The AL status of the slave with this number and its code: a read of six bytes at 0x0130 (ETG.1000.4, "AL status").
    Status(usize),
    /// All slaves are asked for INIT, and errors are acknowledged: a write of 0x0011 to AL control (ETG.1000.4, "AL control").
    Init,
}

impl Question {
    /// The command of its datagram.
    pub(crate) fn command(self) -> Command
        ensures { result ≡ (datagram_of self).command }
    {
        match self {
            Question::Status(_) => Command::Fprd,
            Question::Init => Command::Bwr,
        }
    }

    /// The address of its datagram.
    pub(crate) fn address(self) -> u32
        requires { IsAskable self }
        ensures { result ≡ (datagram_of self).address }
    {
        match self {
            Question::Status(slave) => address_of(FIRST_STATION + slave as u16, AL_STATUS as u16),
            Question::Init => address_of(0, AL_CONTROL as u16),
        }
    }

    /// The data of its datagram, as they are sent.
    pub(crate) fn content(&self) -> &'static [u8]
        ensures { result.now ≡ (datagram_of self.now).data_bytes }
    {
        match self {
            Question::Status(_) => &STATUS,
            Question::Init => &INIT,
        }
    }
}

/// Writes the frame of question number `count` in place of what was in `frame`. The count tells answers apart; it begins at 0 again
/// behind 65535.
pub fn write_question(question: Question, count: u16, frame: &mut Frame)
    requires { IsAskable question }
    ensures { IsFrame frame.new.items (bare_payload (question_frame question count)) }
{
    let index = index_of(NUMBER);
    let name = FrameName {
        number: NUMBER,
        part: count,
    }
    .bytes();
    let naming = Sent {
        command: Command::Nop,
        index,
        address: 0,
        content: &name,
    };
    let asking = Sent {
        command: question.command(),
        index,
        address: question.address(),
        content: question.content(),
    };
    write_pair(frame, naming, asking);
}
