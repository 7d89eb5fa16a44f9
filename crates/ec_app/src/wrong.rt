//! Arguments that can't be right, whatever the input is.
ghost use Rattle.std.specs.Prelude.{◌≡◌, IfNone, IfSome};
ghost use Rattle.ec_args.specs.Requests.{command_of};
ghost use Rattle.ec_app.specs.Wrong.{IsAddress, IsPeer, IsRight, IsRightAt, IsWrong, IsWrongAt, wrong_text};

use ec_args::Request;
use ec_card::is_socket;
use std::net::{Ipv4Addr, SocketAddrV4};

/// An argument that can't be right.
#[derive(Clone, Copy, Debug, PartialEq, Eq, Drop)]
pub enum Wrong {
    /// `--bind` is no IPv4 address.
    Bind,
    /// `--to` is no IPv4 address with a port.
    To,
    /// `--descriptor` isn't that of a socket.
    Descriptor,
}

impl Wrong {
    /// What the fault stream says of it.
    pub(crate) fn text(self) -> &'static str
        ensures { result.now ≡ wrong_text self }
    {
        match self {
            Wrong::Bind => "error: --bind takes an IPv4 address, as 127.0.0.1\n",
            Wrong::To => "error: --to takes an IPv4 address and a port, as 127.0.0.1:34980\n",
            Wrong::Descriptor => "error: --descriptor takes the number of a socket that is open\n",
        }
    }
}

/// What is wrong with the arguments of a command; `None` if they may be right.
pub(crate) fn wrong_of(request: &Request<'_>) -> Option<Wrong>
    ensures wrong { IfSome result (IsWrong (command_of request.now)) }
    ensures right { IfNone result (IsRight (command_of request.now)) }
{
    match request {
        Request::Segment { options, .. } => wrong_segment(options.descriptor, options.bind),
        Request::Master { to, descriptor, .. } | Request::Scan { to, descriptor, .. } => {
            wrong_master(*descriptor, to)
        }
        Request::Pass { .. }
        | Request::Plan { .. }
        | Request::Decode { .. }
        | Request::Encode
        | Request::Sim { .. }
        | Request::Loop { .. } => None,
    }
}

/// What is wrong with where a segment answers.
fn wrong_segment(descriptor: Option<u16>, bind: &str) -> Option<Wrong>
    ensures wrong { IfSome result (IsWrongAt descriptor (IsAddress bind.now) Wrong.Bind) }
    ensures right { IfNone result (IsRightAt descriptor (IsAddress bind.now)) }
{
    match descriptor {
        None => match bind.parse::<Ipv4Addr>() {
            Ok(_) => None,
            Err(_) => Some(Wrong::Bind),
        },
        Some(descriptor) => wrong_descriptor(descriptor),
    }
}

/// What is wrong with where a master or a scan asks.
fn wrong_master(descriptor: Option<u16>, to: &str) -> Option<Wrong>
    ensures wrong { IfSome result (IsWrongAt descriptor (IsPeer to.now) Wrong.To) }
    ensures right { IfNone result (IsRightAt descriptor (IsPeer to.now)) }
{
    match descriptor {
        None => match to.parse::<SocketAddrV4>() {
            Ok(_) => None,
            Err(_) => Some(Wrong::To),
        },
        Some(descriptor) => wrong_descriptor(descriptor),
    }
}

/// Whether the system says that a descriptor is no socket's.
fn wrong_descriptor(descriptor: u16) -> Option<Wrong>
    ensures { IfSome result (λ wrong. wrong ≡ Wrong.Descriptor) }
{
    if is_socket(descriptor) {
        None
    } else {
        Some(Wrong::Descriptor)
    }
}
