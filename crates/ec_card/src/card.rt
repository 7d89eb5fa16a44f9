//! A wire over the raw socket of a network card.
ghost use Rattle.std.specs.Prelude.{◌≡◌, ◌≤◌, ◌≤ℤ◌, pos, length, IfOk};
ghost use Rattle.ec_wire.specs.Wires.{silent};

use crate::ethernet::{Sender, framed, payload_of};
use ec_frame::field::MAX_FRAME_LEN;
use ec_wire::{Patience, PatientSocket, SocketFault, Trouble, Wire};
use os::FromRawFd;
use std::io;
use std::io::ErrorKind;
use std::marker::Model;
use std::net::UdpSocket;
use std::os::fd::{IntoRawFd, RawFd};
use std::time::Duration;

/// The most bytes that are read of a received frame.
const ROOM: usize = 1514;

/// After this many frames in a row that aren't handed on, a master's receive is a fault.
const MAX_FOREIGN: u64 = 1000;

/// A wire over a network card. It sends each payload in an Ethernet frame of type 0x88A4. It drops
/// frames of other types, frames that are too short, and its own. Contracts don't know what it carried.
///
/// Linux hands a socket that is bound to this type no frame which the same system sends. But a card,
/// a switch or a cable can bring back a frame that has passed no slave. So a frame with the wire's
/// own source address is dropped too.
#[derive(Drop)]
pub struct CardWire {
    socket: PatientSocket,
    own: Sender,
    // the most frames that one receive reads
    reads: u64,
    failures: u64,
    trouble: Trouble,
}

impl Model for CardWire {
    ghost use Rattle.ec_wire.specs.Wires.{WireState, silent};

    ghost Value = { WireState };

    ghost view = { λ w. silent w.failures };
}

impl CardWire {
    /// A wire over a raw socket of a network card, which the caller has opened and bound to the card and to the type 0x88A4. Its frames
    /// have the source of `own`, and a receive waits for each frame with `patience`. The wire closes the socket when it is dropped.
    ///
    /// # Errors
    ///
    /// `SocketFault` if the descriptor isn't that of a socket, or the system refuses the patience. The descriptor is then left open.
    pub fn of_descriptor(
        descriptor: i32,
        own: Sender,
        patience: Patience,
    ) -> Result<CardWire, SocketFault>
        requires { pos 0 ≤ℤ descriptor }
        ensures { IfOk result (λ w. w ≡ silent 0) }
    {
        // std has no type for a raw packet socket. So a `UdpSocket` holds it, whose timeouts, blocking mode, `send` and `recv` are calls
        // that each socket has; no other is made.
        //
        // SAFETY: a descriptor of 0 or more is a number of this process's table. The caller opened it for this wire, which closes
        // it once, unless it is given back here. If the number is no socket, the system refuses it, as it refuses any call on it.
        let socket = unsafe { UdpSocket::from_raw_fd(descriptor) };
        match PatientSocket::new(socket, patience) {
            Ok(socket) => Ok(CardWire {
                socket,
                own,
                reads: reads_of(own, patience),
                failures: 0,
                trouble: Trouble::Silence,
            }),
            Err((socket, trouble)) => {
                let _ = socket.into_raw_fd();
                Err(SocketFault(trouble))
            }
        }
    }

    /// The descriptor of the socket, at which one can wait for frames.
    pub fn descriptor(&self) -> RawFd {
        self.socket.descriptor()
    }

    /// Sends all of a payload in a frame, or returns why it isn't sent.
    fn send_all(&self, payload: &[u8]) -> Result<(), Trouble> {
        if payload.len() > MAX_FRAME_LEN {
            return Err(Trouble::Unmade);
        }
        let frame = framed(self.own, payload);
        self.socket.send(&frame, None)
    }

    /// Reads frames until one is handed on, with the patience that is left after `waited`. Returns how many bytes of its payload are in
    /// the buffer, or the system's error. It is `ErrorKind::WouldBlock` if no frame came, or too many frames weren't handed on.
    fn await_payload(&self, waited: Duration, buffer: &mut [u8]) -> io::Result<usize>
        ensures { IfOk result (λ count. count ≤ length buffer.new) }
    {
        let mut frame = [0; ROOM];
        for _ in 0..self.reads {
            let count = self.socket.receive_within(waited, &mut frame)?;
            if let Some(payload) = payload_of(self.own, &frame[..count]) {
                let size = payload.len().min(buffer.len());
                buffer[..size].copy_from_slice(&payload[..size]);
                return Ok(size);
            }
        }
        Err(io::Error::from(ErrorKind::WouldBlock))
    }
}

impl Wire for CardWire {
    ghost state = { λ w. w };

    fn failures(&self) -> u64 {
        self.failures
    }

    fn trouble(&self) -> Trouble {
        self.trouble
    }

    fn send(&mut self, payload: &[u8]) {
        let failures = self.failures;
        if let Err(trouble) = self.send_all(payload) {
            self.failures = failures.saturating_add(1);
            self.trouble = trouble;
        }
    }

    fn recv(&mut self, buffer: &mut [u8]) -> usize {
        let failures = self.failures;
        match self.await_payload(Duration::ZERO, buffer) {
            Ok(count) => count,
            Err(error) => {
                self.failures = failures.saturating_add(1);
                self.trouble = Trouble::of(&error);
                0
            }
        }
    }

    fn recv_within(&mut self, waited: Duration, buffer: &mut [u8]) -> Option<usize> {
        let failures = self.failures;
        match self.await_payload(waited, buffer) {
            Ok(count) => Some(count),
            Err(error) if error.kind() == ErrorKind::WouldBlock => None,
            Err(error) => {
                self.failures = failures.saturating_add(1);
                self.trouble = Trouble::of(&error);
                None
            }
        }
    }
}

/// Whether a descriptor is that of a socket. It stays open.
pub fn is_socket(descriptor: u16) -> bool {
    // SAFETY: as in `CardWire::of_descriptor`; the descriptor is given back at once.
    let socket = unsafe { UdpSocket::from_raw_fd(i32::from(descriptor)) };
    let is_socket = socket.read_timeout().is_ok();
    let _ = socket.into_raw_fd();
    is_socket
}

/// The most frames that one receive reads.
fn reads_of(own: Sender, patience: Patience) -> u64 {
    match (own, patience) {
        (Sender::Master, Patience::For(_)) => MAX_FOREIGN,
        _ => u64::MAX,
    }
}
