//! How long a receive on a socket waits, and a socket whose calls no signal cuts short.
ghost use Rattle.std.specs.Prelude.{◌≡◌, ◌==◌, ◌≤◌, ◌*◌, length, None, Some, IfOk, if◌then◌else◌, option_map};
ghost use Rattle.std.specs.Duration.{as_nanos};
ghost use Rattle.ec_wire.specs.Waiting.{AreWithin, lasts, parts_left};

use crate::trouble::Trouble;
use std::io;
use std::io::ErrorKind;
use std::net::{SocketAddr, UdpSocket};
use std::os::fd::{AsRawFd, RawFd};
use std::time::Duration;

/// The least number of parts of a patience that ends.
const LEAST_PARTS: u32 = 2;

/// One part of a long patience, in milliseconds.
const LONG_PART: u128 = 50;

/// How long a receive waits.
#[derive(Clone, Copy, Debug, PartialEq, Eq, Drop)]
pub enum Patience {
    /// Without end.
    Endless,
    /// This long. A socket refuses a patience of 0.
    For(Duration),
}

impl Patience {
    /// A patience of so many seconds; with 0 it has no end.
    pub fn of_seconds(seconds: u32) -> Patience
        ensures { lasts result ≡ (if seconds == 0 then None else Some (seconds * 1_000_000_000)) }
    {
        if seconds == 0 {
            Patience::Endless
        } else {
            Patience::For(Duration::from_secs(u64::from(seconds)))
        }
    }

    /// A patience of so many milliseconds. A socket refuses one of 0.
    pub fn of_millis(millis: u16) -> Patience
        ensures { lasts result ≡ Some (millis * 1_000_000) }
    {
        Patience::For(Duration::from_millis(u64::from(millis)))
    }

    /// How long one part of a wait is, `None` if it has no end, and how many parts there are.
    #[tactic(auto, using(crate::proofs::PatientCalls::parts_within))]
    fn parts(self) -> (Option<Duration>, u64)
        ensures { AreWithin self result.0 result.1 }
    {
        match self {
            Patience::Endless => (None, u64::MAX),
            Patience::For(whole) => {
                let parts = parts_of(whole);
                (Some(whole / parts), u64::from(parts))
            }
        }
    }
}

/// How many parts a receive has that waits this long in all.
fn parts_of(whole: Duration) -> u32
    ensures { 2 ≤ result }
{
    match u32::try_from(whole.as_millis() / LONG_PART) {
        Ok(parts) => parts.max(LEAST_PARTS),
        Err(_) => u32::MAX,
    }
}

/// How many parts of a wait are left after `waited`, of `count` in all.
fn parts_left(part: Option<Duration>, count: u64, waited: Duration) -> u64
    ensures { result ≡ parts_left (option_map as_nanos part) count (as_nanos waited) }
{
    match part {
        None => count,
        Some(part) => {
            let over = waited.as_nanos() / part.as_nanos().max(1);
            count.saturating_sub(u64::try_from(over).unwrap_or(u64::MAX))
        }
    }
}

/// A datagram socket whose calls are made again if a signal interrupts them, as when a process is stopped and goes on. A receive
/// waits in parts, and a part that was interrupted counts as over. So it never waits longer than its patience, and the time
/// during which the process is stopped doesn't count.
#[derive(Drop)]
pub struct PatientSocket {
    socket: UdpSocket,
    part: Option<Duration>,
    parts: u64,
}

impl PatientSocket {
    /// A socket whose receives wait with this patience, also if the socket was non-blocking before.
    ///
    /// # Errors
    ///
    /// The socket itself, and what the system says, if it isn't a socket or the system refuses the patience, as it refuses 0.
    pub fn new(
        socket: UdpSocket,
        patience: Patience,
    ) -> Result<PatientSocket, (UdpSocket, Trouble)> {
        let (part, parts) = patience.parts();
        let refused = match socket.set_read_timeout(part) {
            Ok(()) => socket.set_nonblocking(false).err(),
            Err(error) => Some(error),
        };
        match refused {
            Some(error) => Err((socket, Trouble::of(&error))),
            None => Ok(PatientSocket {
                socket,
                part,
                parts,
            }),
        }
    }

    /// The descriptor of the socket, at which one can wait.
    pub fn descriptor(&self) -> RawFd {
        self.socket.as_raw_fd()
    }

    /// The port of the socket.
    pub(crate) fn port(&self) -> io::Result<u16> {
        Ok(self.socket.local_addr()?.port())
    }

    /// Connects the socket with one peer. It then receives from this peer alone.
    pub(crate) fn connect(&self, peer: SocketAddr) -> io::Result<()> {
        self.socket.connect(peer)
    }

    /// Sends a datagram to the address `to`, or to the peer that the socket is connected with if that is `None`.
    ///
    /// # Errors
    ///
    /// What the system says; also if not all of it was sent.
    pub fn send(&self, datagram: &[u8], to: Option<SocketAddr>) -> Result<(), Trouble> {
        for _ in 0..self.parts {
            match self.send_once(datagram, to) {
                Ok(count) if count == datagram.len() => return Ok(()),
                Ok(_) => return Err(Trouble::Unmade),
                Err(error) if error.kind() == ErrorKind::Interrupted => {}
                Err(error) => return Err(Trouble::of(&error)),
            }
        }
        Err(Trouble::Silence)
    }

    /// Receives a datagram into `buffer`, cut to the room there, and returns how many bytes are there. When the patience is over, it
    /// takes a datagram that has come by then.
    ///
    /// # Errors
    ///
    /// The system's error; `ErrorKind::WouldBlock` if nothing came.
    pub fn receive(&self, buffer: &mut [u8]) -> io::Result<usize>
        ensures { IfOk result (λ count. count ≤ length buffer.new) }
    {
        self.receive_within(Duration::ZERO, buffer)
    }

    /// Receives as [`PatientSocket::receive`] does, with the patience that is left after `waited`.
    ///
    /// # Errors
    ///
    /// Those of [`PatientSocket::receive`].
    pub fn receive_within(&self, waited: Duration, buffer: &mut [u8]) -> io::Result<usize>
        ensures { IfOk result (λ count. count ≤ length buffer.new) }
    {
        for _ in 0..parts_left(self.part, self.parts, waited) {
            match self.socket.recv(buffer) {
                Err(error) if is_over(&error) => {}
                ended => return ended,
            }
        }
        self.socket.set_nonblocking(true)?;
        let ended = self.socket.recv(buffer);
        self.socket.set_nonblocking(false)?;
        ended
    }

    /// Receives as [`PatientSocket::receive_within`] does, and also returns the address that the datagram came from.
    ///
    /// # Errors
    ///
    /// Those of [`PatientSocket::receive`].
    pub(crate) fn receive_from(
        &self,
        waited: Duration,
        buffer: &mut [u8],
    ) -> io::Result<(usize, SocketAddr)>
        ensures { IfOk result (λ came. came.0 ≤ length buffer.new) }
    {
        for _ in 0..parts_left(self.part, self.parts, waited) {
            match self.socket.recv_from(buffer) {
                Err(error) if is_over(&error) => {}
                ended => return ended,
            }
        }
        self.socket.set_nonblocking(true)?;
        let ended = self.socket.recv_from(buffer);
        self.socket.set_nonblocking(false)?;
        ended
    }

    /// Sends a datagram once.
    fn send_once(&self, datagram: &[u8], to: Option<SocketAddr>) -> io::Result<usize> {
        match to {
            Some(peer) => self.socket.send_to(datagram, peer),
            None => self.socket.send(datagram),
        }
    }
}

/// Whether an error ends one part of a wait: its time is over, or a signal interrupted it.
fn is_over(error: &io::Error) -> bool {
    matches!(error.kind(), ErrorKind::WouldBlock | ErrorKind::Interrupted)
}
