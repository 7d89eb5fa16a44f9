//! A wire over the system's UDP sockets.
ghost use Rattle.std.specs.Prelude.{◌≡◌, ◌≤◌, length, IfOk};
ghost use Rattle.ec_wire.specs.Wires.{IsOpened, one_more, silent};

use crate::error::SocketFault;
use crate::patience::{Patience, PatientSocket};
use crate::trouble::Trouble;
use crate::wire::Wire;
use ec_frame::field::MAX_FRAME_LEN;
use std::io;
use std::io::ErrorKind;
use std::marker::Model;
use std::net::{Ipv4Addr, Net, SocketAddr, SocketAddrV4, UdpSocket};
use std::os::fd::RawFd;
use std::time::Duration;

/// How long a master waits for a payload by default, in milliseconds.
const PATIENCE: u16 = 500;

/// How long a segment waits for a payload by default, in seconds.
const MAX_IDLE: u32 = 60;

/// Whom a wire sends to.
#[derive(Clone, Copy)]
enum Peer {
    /// The peer that the socket is connected with. The wire receives from it alone.
    Connected,
    /// The sender of the last payload that the wire received, if there was one.
    Last(Option<SocketAddr>),
}

/// A wire over a UDP socket, on 127.0.0.1 unless [`UdpWire::connect_patient`] opened it. Contracts know nothing of what it carried.
#[derive(Drop)]
pub struct UdpWire {
    socket: PatientSocket,
    port: u16,
    peer: Peer,
    failures: u64,
    trouble: Trouble,
}

impl Model for UdpWire {
    ghost use Rattle.ec_wire.specs.Wires.{SocketState};

    ghost Value = { SocketState };

    ghost view = { λ w. record { port = w.port; failed = w.failures } };
}

impl UdpWire {
    /// This wire, connected with the peer on a port of 127.0.0.1. It receives from that peer alone.
    pub(crate) fn connected_to(self, port: u16) -> Result<UdpWire, SocketFault>
        ensures { IfOk result (λ w. w ≡ self) }
    {
        self.connected_with(here(port))
    }

    /// A segment's wire on a port of 127.0.0.1; with port 0 the system picks one. It sends to the sender of the last payload that it
    /// received. A receive that gets nothing for a minute is a fault.
    ///
    /// # Errors
    ///
    /// `SocketFault` if there is no such socket, for example because the port is in use.
    pub fn bind<R: Net>(rt: &R, port: u16) -> Result<UdpWire, SocketFault>
        ensures { IfOk result (IsOpened port) }
    {
        UdpWire::bind_at(
            rt,
            Ipv4Addr::LOCALHOST,
            port,
            Patience::of_seconds(MAX_IDLE),
        )
    }

    /// A segment's wire on a port of an address; with port 0 the system picks one. It sends to the sender of the last payload that it
    /// received. A receive that gets nothing with this patience is a fault.
    ///
    /// # Errors
    ///
    /// `SocketFault` if there is no such socket, for example because the port is in use.
    pub fn bind_at<R: Net>(
        rt: &R,
        address: Ipv4Addr,
        port: u16,
        patience: Patience,
    ) -> Result<UdpWire, SocketFault>
        ensures { IfOk result (IsOpened port) }
    {
        let (socket, found) = open(rt, SocketAddr::from((address, port)), patience)?;
        if port != 0 && found != port {
            return Err(SocketFault(Trouble::Unmade));
        }
        Ok(UdpWire {
            socket,
            port: found,
            peer: Peer::Last(None),
            failures: 0,
            trouble: Trouble::Silence,
        })
    }

    /// The descriptor of the socket, at which one can wait for payloads.
    pub fn descriptor(&self) -> RawFd {
        self.socket.descriptor()
    }

    /// A wire on a port of 127.0.0.1 that the system picks. It sends to the sender of the last payload that it received. A receive that
    /// gets nothing in half a second is a fault.
    pub(crate) fn bind_impatient<R: Net>(rt: &R) -> Result<UdpWire, SocketFault>
        ensures { IfOk result (λ w. w.failed ≡ 0) }
    {
        UdpWire::bind_at(rt, Ipv4Addr::LOCALHOST, 0, Patience::of_millis(PATIENCE))
    }

    /// A master's wire to the segment on a port of 127.0.0.1. It receives from that segment alone. A receive that gets nothing in half
    /// a second is a fault.
    ///
    /// # Errors
    ///
    /// `SocketFault` if no socket can be opened and connected.
    pub fn connect<R: Net>(rt: &R, port: u16) -> Result<UdpWire, SocketFault>
        ensures { IfOk result (λ w. w.failed ≡ 0) }
    {
        UdpWire::bind_impatient(rt)?.connected_to(port)
    }

    /// A master's wire to the segment at an address and port. It receives from that segment alone. A receive that gets nothing in
    /// `patience` milliseconds is a fault.
    ///
    /// # Errors
    ///
    /// `SocketFault` if no such socket can be opened and connected, or `patience` is 0.
    pub fn connect_patient<R: Net>(
        rt: &R,
        peer: SocketAddrV4,
        patience: u16,
    ) -> Result<UdpWire, SocketFault>
        ensures { IfOk result (λ w. w.failed ≡ 0) }
    {
        let anywhere = SocketAddr::from((Ipv4Addr::UNSPECIFIED, 0));
        let (socket, port) = open(rt, anywhere, Patience::of_millis(patience))?;
        let wire = UdpWire {
            socket,
            port,
            peer: Peer::Last(None),
            failures: 0,
            trouble: Trouble::Silence,
        };
        wire.connected_with(SocketAddr::V4(peer))
    }

    /// The port of the socket.
    pub fn port(&self) -> u16
        ensures { result ≡ self.now.port }
    {
        self.port
    }

    /// This wire, connected with one peer. It receives from that peer alone.
    fn connected_with(self, peer: SocketAddr) -> Result<UdpWire, SocketFault>
        ensures { IfOk result (λ w. w ≡ self) }
    {
        let mut wire = self;
        match wire.socket.connect(peer) {
            Ok(()) => {
                wire.peer = Peer::Connected;
                Ok(wire)
            }
            Err(error) => Err(error.into()),
        }
    }

    /// Sends all of a payload to the peer, or returns why it isn't sent.
    fn send_all(&self, payload: &[u8]) -> Result<(), Trouble> {
        if payload.len() > MAX_FRAME_LEN {
            return Err(Trouble::Unmade);
        }
        match self.peer {
            Peer::Connected => self.socket.send(payload, None),
            Peer::Last(Some(peer)) => self.socket.send(payload, Some(peer)),
            Peer::Last(None) => Err(Trouble::Unmade),
        }
    }

    /// Counts a fault, and keeps why it was one.
    fn fail(&mut self, trouble: Trouble)
        ensures { self.new ≡ record self.old { failed = one_more self.old.failed } }
    {
        self.failures = self.failures.saturating_add(1);
        self.trouble = trouble;
    }

    /// Receives a payload, with the patience that is left after `waited`. Returns how many bytes of it are in `buffer`, and the peer to
    /// send to next. `ErrorKind::WouldBlock` if nothing came.
    fn receive(&self, waited: Duration, buffer: &mut [u8]) -> io::Result<(usize, Peer)>
        ensures { IfOk result (λ came. came.0 ≤ length buffer.new) }
    {
        match self.peer {
            Peer::Connected => {
                let count = self.socket.receive_within(waited, buffer)?;
                Ok((count, Peer::Connected))
            }
            Peer::Last(_) => {
                let (count, sender) = self.socket.receive_from(waited, buffer)?;
                Ok((count, Peer::Last(Some(sender))))
            }
        }
    }
}

impl Wire for UdpWire {
    ghost state = { λ w. silent w.failed };

    fn failures(&self) -> u64 {
        self.failures
    }

    fn trouble(&self) -> Trouble {
        self.trouble
    }

    fn send(&mut self, payload: &[u8]) {
        if let Err(trouble) = self.send_all(payload) {
            self.fail(trouble);
        }
    }

    fn recv(&mut self, buffer: &mut [u8]) -> usize {
        let room = buffer.len().min(MAX_FRAME_LEN);
        match self.receive(Duration::ZERO, &mut buffer[..room]) {
            Ok((count, peer)) => {
                self.peer = peer;
                count
            }
            Err(error) => {
                self.fail(Trouble::of(&error));
                0
            }
        }
    }

    fn recv_within(&mut self, waited: Duration, buffer: &mut [u8]) -> Option<usize> {
        let room = buffer.len().min(MAX_FRAME_LEN);
        match self.receive(waited, &mut buffer[..room]) {
            Ok((count, peer)) => {
                self.peer = peer;
                Some(count)
            }
            Err(error) if error.kind() == ErrorKind::WouldBlock => None,
            Err(error) => {
                self.fail(Trouble::of(&error));
                None
            }
        }
    }
}

/// Opens a socket at an address, whose receives wait with this patience. Returns it and its port.
fn open<R: Net>(
    rt: &R,
    at: SocketAddr,
    patience: Patience,
) -> Result<(PatientSocket, u16), SocketFault> {
    let socket = UdpSocket::bind(rt, at)?;
    let socket = match PatientSocket::new(socket, patience) {
        Ok(socket) => socket,
        Err((_, trouble)) => return Err(SocketFault(trouble)),
    };
    let port = socket.port()?;
    Ok((socket, port))
}

/// The address of a port on 127.0.0.1.
fn here(port: u16) -> SocketAddr {
    SocketAddr::from((Ipv4Addr::LOCALHOST, port))
}
