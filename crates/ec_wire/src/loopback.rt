//! A master's wire and its segment on two sockets in one thread.
ghost use Rattle.std.specs.Prelude.{◌≡◌, ◌≤◌, ◌<◌, None, Some, true, is_some, length, IfOk, IfSome, OnErr, OnOk};
ghost use Rattle.ec_wire.specs.Wires.{counted, max_failed, nothing_sent, one_more, opened_to};

use crate::application::{App, answer};
use crate::error::SocketFault;
use crate::trouble::Trouble;
use crate::udp::UdpWire;
use crate::wire::{Wire, listen_on, receive_on, send_on};
use ec_frame::field::MAX_FRAME_LEN;
use ec_ring::Ring;
use std::marker::Model;
use std::net::Net;
use std::time::Duration;

/// The sockets of a master and of its segment, on ports of 127.0.0.1 that the system picks. They are connected with each other:
/// neither receives what comes from elsewhere.
#[derive(Drop)]
struct Sockets {
    master: UdpWire,
    segment: UdpWire,
}

impl Sockets {
    /// Opens two such sockets. `SocketFault` if one can't be opened or connected.
    fn bind<R: Net>(rt: &R) -> Result<Sockets, SocketFault> {
        let segment = UdpWire::bind_impatient(rt)?;
        let master = UdpWire::connect(rt, segment.port())?;
        let segment = segment.connected_to(master.port())?;
        Ok(Sockets { master, segment })
    }
}

/// The slaves of the last wire that was opened, the payloads sent, the payloads received, and the calls that were faults.
#[derive(Clone, Copy, Drop)]
struct Counts {
    slaves: usize,
    sent: u64,
    received: u64,
    failed: u64,
}

/// An application of simulated slaves in this process, and counts of a master's traffic with slaves that have it, over sockets. They
/// are the slaves of the last wire, payloads sent and received, and calls that were faults. Only wires that [`Loopback::open`] returned
/// change the counts of payloads and faults. At the slaves of such a wire, only the application that it was opened with steps.
#[derive(Drop)]
pub struct Loopback<A: Drop> {
    /// `None` while a wire has the application.
    app: Option<A>,
    counts: Counts,
}

impl<A: Drop> Model for Loopback<A> {
    ghost use Rattle.ec_wire.specs.Wires.{LoopbackState};

    ghost Value = { LoopbackState A };

    ghost view = { λ l. record {
      app = l.app;
      traffic = record { slaves = l.counts.slaves; sent = l.counts.sent; received = l.counts.received; failed = l.counts.failed };
    } };
}

impl<A: App + Drop> Loopback<A> {
    /// A loopback with this application, whose counts are 0.
    pub fn new(app: A) -> Loopback<A>
        ensures { result ≡ record { app = Some app; traffic = nothing_sent } }
    {
        let counts = Counts {
            slaves: 0,
            sent: 0,
            received: 0,
            failed: 0,
        };
        Loopback {
            app: Some(app),
            counts,
        }
    }

    /// How many payloads a master sent to its slaves, over all wires that were closed.
    pub fn sent(&self) -> u64
        ensures { result ≡ self.now.traffic.sent }
    {
        self.counts.sent
    }

    /// How many calls were faults, over all wires that were closed.
    pub fn failures(&self) -> u64
        ensures { result ≡ self.now.traffic.failed }
    {
        self.counts.failed
    }

    /// How many slaves the last wire was opened to.
    pub fn slaves(&self) -> usize
        ensures { result ≡ self.now.traffic.slaves }
    {
        self.counts.slaves
    }

    /// How many payloads a master received from its slaves, over all wires that were closed.
    pub fn received(&self) -> u64
        ensures { result ≡ self.now.traffic.received }
    {
        self.counts.received
    }

    /// Opens a master's wire to these slaves over two new sockets, on ports of 127.0.0.1 that the system picks. The wire takes the
    /// application. The sockets are connected with each other: neither receives what comes from elsewhere.
    ///
    /// # Errors
    ///
    /// `SocketFault` if there are no such sockets, or another wire has the application. The slaves are lost then.
    pub fn open<R: Net>(&mut self, rt: &R, ring: Ring) -> Result<LoopWire<A>, SocketFault>
        ensures opened { IfOk result (λ wire. wire.traffic ≡ opened_to (length ring) self.old.traffic) }
        ensures taken { IfOk result (λ wire. (is_some self.old.app ≡ true) × (self.new.app ≡ None)) }
        ensures counts { OnOk result (self.new.traffic ≡ opened_to (length ring) self.old.traffic) }
        ensures refused { OnErr result (self.new ≡ self.old) }
    {
        let sockets = Sockets::bind(rt)?;
        let ports = (sockets.master.port(), sockets.segment.port());
        let Some(app) = self.app.take() else {
            return Err(SocketFault(Trouble::Unmade));
        };
        self.counts.slaves = ring.len();
        Ok(LoopWire {
            sockets,
            ports,
            ring,
            app,
            counts: self.counts,
            buffer: [0; MAX_FRAME_LEN],
        })
    }

    /// Takes back the application of a wire that this loopback opened, and the wire's counts. It can be called only while a wire has the
    /// application, so none is lost.
    pub fn close(&mut self, wire: LoopWire<A>)
        requires { self.old.app ≡ None }
        ensures counts { self.new.traffic ≡ opened_to self.old.traffic.slaves wire.traffic }
        ensures back { is_some self.new.app ≡ true }
    {
        let LoopWire {
            sockets: _,
            ports: _,
            ring: _,
            app,
            counts,
            buffer: _,
        } = wire;
        self.app = Some(app);
        self.counts = Counts {
            slaves: self.counts.slaves,
            ..counts
        };
    }
}

/// A master's wire to a segment on a second socket of the same thread. While the master sends a frame, the segment receives it,
/// passes and serves its slaves, and sends the frame back. Contracts know how many payloads the wire sent and received. If one of
/// these counts is 2^64 - 1, each call that would raise it is a fault.
#[derive(Drop)]
pub struct LoopWire<A: Drop> {
    sockets: Sockets,
    ports: (u16, u16),
    ring: Ring,
    app: A,
    counts: Counts,
    buffer: [u8; MAX_FRAME_LEN],
}

impl<A: Drop> Model for LoopWire<A> {
    ghost use Rattle.ec_wire.specs.Wires.{LoopState};

    ghost Value = { LoopState };

    ghost view = { λ w. record {
      ports = record { master = w.ports.0; segment = w.ports.1 };
      traffic = record { slaves = w.counts.slaves; sent = w.counts.sent; received = w.counts.received; failed = w.counts.failed };
    } };
}

impl<A: App + Drop> LoopWire<A> {
    /// The ports of the master's socket and of the segment's, in this order.
    pub fn ports(&self) -> (u16, u16)
        ensures { result ≡ (self.now.ports.master, self.now.ports.segment) }
    {
        self.ports
    }

    /// Whether a call may carry one payload more than `count`.
    fn may_count(&self, count: u64) -> bool
        ensures { result ≡ true → (self.now.traffic.failed < max_failed) × (count < max_failed) }
    {
        self.counts.failed != u64::MAX && count != u64::MAX
    }

    /// Sends a payload over the master's socket. The segment receives it, and sends an answer if it is a frame. Returns whether no call
    /// was a fault.
    fn is_answered(&mut self, payload: &[u8]) -> bool
        ensures { self.new ≡ self.old }
    {
        send_on(&mut self.sockets.master, payload)
            && serve(
                &mut self.sockets.segment,
                &mut self.ring,
                &mut self.app,
                &mut self.buffer,
            )
    }

    /// Receives a payload over the master's socket. Returns its length in bytes, or `None` at a fault.
    fn receive(&mut self, buffer: &mut [u8]) -> Option<usize>
        ensures unchanged { self.new ≡ self.old }
        ensures within { IfSome result (λ count. count ≤ length buffer.new) }
    {
        receive_on(&mut self.sockets.master, buffer)
    }

    /// Receives a payload over the master's socket, with the patience that is left after `waited`. Returns its length in bytes, `None` if
    /// nothing came, or `SocketFault` at a fault.
    fn listen(&mut self, waited: Duration, buffer: &mut [u8]) -> Result<Option<usize>, SocketFault>
        ensures unchanged { self.new ≡ self.old }
        ensures within { IfOk result (λ heard. IfSome heard (λ count. count ≤ length buffer.new)) }
    {
        listen_on(&mut self.sockets.master, waited, buffer)
    }

    /// Counts a fault.
    fn fail(&mut self)
        ensures { self.new ≡ record self.old { traffic = record self.old.traffic { failed = one_more self.old.traffic.failed } } }
    {
        self.counts.failed = self.counts.failed.saturating_add(1);
    }
}

/// Receives a payload at a segment's socket, and sends an answer if it is a frame. Returns whether no call was a fault.
fn serve<A: App>(socket: &mut UdpWire, ring: &mut Ring, app: &mut A, buffer: &mut [u8]) -> bool {
    let Some(count) = receive_on(socket, buffer) else {
        return false;
    };
    let payload = &mut buffer[..count];
    if !answer(ring, app, payload) {
        return true;
    }
    send_on(socket, payload)
}

impl<A: App + Drop> Wire for LoopWire<A> {
    ghost state = { λ w. counted w.traffic };

    fn failures(&self) -> u64 {
        self.counts.failed
    }

    fn trouble(&self) -> Trouble {
        self.sockets.master.trouble()
    }

    fn send(&mut self, payload: &[u8]) {
        let sent = self.counts.sent;
        if self.may_count(sent) && self.is_answered(payload) {
            self.counts.sent = sent + 1;
        } else {
            self.fail();
        }
    }

    fn recv(&mut self, buffer: &mut [u8]) -> usize {
        let received = self.counts.received;
        if self.may_count(received) {
            if let Some(count) = self.receive(buffer) {
                self.counts.received = received + 1;
                return count;
            }
        }
        self.fail();
        0
    }

    fn recv_within(&mut self, waited: Duration, buffer: &mut [u8]) -> Option<usize> {
        let received = self.counts.received;
        if !self.may_count(received) {
            self.fail();
            return None;
        }
        match self.listen(waited, buffer) {
            Ok(Some(count)) => {
                self.counts.received = received + 1;
                Some(count)
            }
            Ok(None) => None,
            Err(_) => {
                self.fail();
                None
            }
        }
    }
}
