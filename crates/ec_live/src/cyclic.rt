//! The part whose cyclic frame a frame is.
ghost use Rattle.std.specs.Prelude.{◌≡◌, ◌==◌, ◌&&◌, List, Option};
ghost use Rattle.ec_frame.specs.Cursor.{IsAhead};
ghost use Rattle.ec_frame.specs.Datagram.{Datagram};
ghost use Rattle.ec_frame.specs.Frame.{Payload, IsFrame};
ghost use Rattle.ec_live.specs.Cyclic.{are_commands, cyclic_commands, cyclic_part, named_part};
ghost use Rattle.ec_live.specs.Stages.{HasOver};

use ec_frame::field::NAME_LEN;
use ec_frame::{Command, Datagrams, Header, read_data};
use ec_link::PartPlan;

/// The part whose cyclic frame a payload is, by the parts of a plan. Its datagrams have the commands of that part's frame, and the first
/// one names the part. `None` for any other frame, such as one of a start-up.
pub fn cyclic_part(parts: &[PartPlan], payload: &[u8]) -> Option<usize>
    requires { (p : Payload) × IsFrame payload.now p }
    ensures { (p : Payload) → IsFrame payload.now p → result ≡ cyclic_part parts.now p.datagrams }
{
    let part = named_part(payload)?;
    if part < parts.len() && has_commands(payload, commands_of(parts[part])) {
        Some(part)
    } else {
        None
    }
}

/// The commands of the datagrams of a part's cyclic frame.
fn commands_of(part: PartPlan) -> &'static [Command]
    ensures { result.now ≡ cyclic_commands part }
{
    if part.bytes == 0 {
        &[Command::Nop, Command::Brd]
    } else if part.split {
        &[Command::Nop, Command::Brd, Command::Lwr, Command::Lrd]
    } else {
        &[Command::Nop, Command::Brd, Command::Lrw]
    }
}

/// The part that a frame's first datagram names; none if its data aren't ten bytes.
fn named_part(payload: &[u8]) -> Option<usize>
    requires { (p : Payload) × IsFrame payload.now p }
    ensures { (p : Payload) → IsFrame payload.now p → result ≡ named_part p.datagrams }
{
    let mut places = Datagrams::new(payload);
    let span = places.next_place(payload)?;
    let name = read_data(&payload[span.from..span.to]);
    if name.len() != NAME_LEN {
        return None;
    }
    Some(usize::from(name[8]) + 256 * usize::from(name[9]))
}

/// Whether a frame has a datagram for each of these commands, in this order, and no other.
fn has_commands(payload: &[u8], commands: &[Command]) -> bool
    requires { (p : Payload) × IsFrame payload.now p }
    ensures { (p : Payload) → IsFrame payload.now p → result ≡ are_commands commands.now p.datagrams }
{
    let mut places = Datagrams::new(payload);
    for command in commands {
        if !is_next(&mut places, payload, *command) {
            return false;
        }
    }
    places.next_place(payload).is_none()
}

/// Goes past the next datagram. Returns whether there is one and has this command.
fn is_next(places: &mut Datagrams, payload: &[u8], command: Command) -> bool
    requires { (ds : List Datagram) × IsAhead payload.now places.old ds }
    ensures { (ds : List Datagram) → IsAhead payload.now places.old ds → HasOver payload.now places.new command ds result }
{
    match places.next_place(payload) {
        Some(span) => {
            let header = Header::read(&payload[span.from..span.to]);
            header.command.number() == command.number()
        }
        None => false,
    }
}
