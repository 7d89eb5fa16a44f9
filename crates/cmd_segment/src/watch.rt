//! What waits at a segment's wire and at its input, on one thread.
use ec_live::{LineSource, Ready, Watching};
use ec_wire::{SocketFault, Trouble};
use mio::unix::SourceFd;
use mio::{Events, Interest, Poll, Token};
use std::io::{self, ErrorKind};
use std::net::Net;
use std::os::fd::RawFd;
use std::time::{Clock, Duration, Instant};

/// The names of the sources in the system's events.
const WIRE: Token = Token(0);

const INPUT: Token = Token(1);

/// What waits at a wire and at an input, by their descriptors. The system tells of a source once, so it is asked again before the next
/// wait about each source that was handed on.
#[derive(Drop)]
pub struct Watch<'c, C: Clock> {
    poll: Poll,
    events: Events,
    wire: RawFd,
    // none if the system can't watch the input, as a file, whose bytes are always there
    input: Option<RawFd>,
    has_payload: bool,
    has_bytes: bool,
    // whose turn it is if both are there
    is_line_next: bool,
    // what was handed on last, and isn't asked about yet
    last: Option<Ready>,
    clock: &'c C,
    idle: Option<Duration>,
    since: Option<Instant>,
}

impl<'c, C: Clock> Watch<'c, C> {
    /// What waits at the descriptors of a wire and of an input. The patience for payloads is `idle`; without one it has no end.
    ///
    /// # Errors
    ///
    /// The system's, if it refuses to watch the wire; `ErrorKind::OutOfMemory` if there is no memory.
    pub fn new(
        rt: &'c C,
        wire: RawFd,
        input: Option<RawFd>,
        idle: Option<Duration>,
    ) -> io::Result<Watch<'c, C>>
    where
        C: Net + AllocGlobal,
    {
        let poll = Poll::new(rt)?;
        let events = Events::with_capacity(rt.alloc(), 2)?;
        poll.registry()
            .register(&mut SourceFd(&wire), WIRE, Interest::READABLE)?;
        Ok(Watch {
            input: watched(&poll, input),
            poll,
            events,
            wire,
            has_payload: false,
            has_bytes: false,
            is_line_next: false,
            last: None,
            clock: rt,
            idle,
            since: Instant::now(rt).ok(),
        })
    }

    /// What is there of what was found, in turn; `None` if nothing is.
    fn next(&mut self) -> Option<Ready> {
        if self.has_payload && !(self.has_bytes && self.is_line_next) {
            self.has_payload = false;
            self.since = Instant::now(self.clock).ok();
            self.is_line_next = true;
            self.last = Some(Ready::Frame);
        } else if self.has_bytes {
            self.has_bytes = false;
            self.is_line_next = false;
            self.last = Some(Ready::Line);
        }
        self.last
    }

    /// Asks the system again about the source that was handed on last, and waits for at most this long, or until a signal interrupts it.
    fn poll(&mut self, lines: LineSource, limit: Option<Duration>) -> io::Result<()> {
        self.ask_again(lines)?;
        if let Err(error) = self.poll.poll(&mut self.events, limit) {
            return match error.kind() {
                ErrorKind::Interrupted => Ok(()),
                _ => Err(error),
            };
        }
        for event in self.events.iter() {
            if event.token() == WIRE {
                self.has_payload = true;
            } else {
                self.has_bytes = true;
            }
        }
        Ok(())
    }

    /// Asks the system again about the source that was handed on last. It needn't watch an input that has ended.
    fn ask_again(&mut self, lines: LineSource) -> io::Result<()> {
        if let (Some(input), LineSource::Ended) = (self.input, lines) {
            self.poll.registry().deregister(&mut SourceFd(&input))?;
            self.input = None;
        }
        let registry = self.poll.registry();
        match (self.last.take(), self.input) {
            (Some(Ready::Frame), _) => {
                registry.reregister(&mut SourceFd(&self.wire), WIRE, Interest::READABLE)
            }
            (Some(Ready::Line), Some(input)) => {
                registry.reregister(&mut SourceFd(&input), INPUT, Interest::READABLE)
            }
            _ => Ok(()),
        }
    }

    /// How long the patience for payloads still is; without end if that is `None`.
    fn patience(&self) -> Option<Duration> {
        let idle = self.idle?;
        match (self.since, Instant::now(self.clock)) {
            (Some(since), Ok(now)) => Some(idle.saturating_sub(now.duration_since(since))),
            _ => Some(idle),
        }
    }
}

impl<C: Clock> Watching for Watch<'_, C> {
    fn wait(&mut self, lines: LineSource) -> Result<Ready, SocketFault> {
        for _ in 0..u64::MAX {
            if has_bytes_now(lines, self.input) {
                self.has_bytes = true;
            }
            let limit = if self.has_payload || self.has_bytes {
                Some(Duration::ZERO)
            } else {
                self.patience()
            };
            self.poll(lines, limit)?;
            if let Some(ready) = self.next() {
                return Ok(ready);
            }
            if limit == Some(Duration::ZERO) {
                return Ok(Ready::Over);
            }
        }
        Err(SocketFault(Trouble::Silence))
    }
}

/// Whether bytes of lines needn't be waited for: they are ahead, or the system can't watch the input.
fn has_bytes_now(lines: LineSource, input: Option<RawFd>) -> bool {
    match lines {
        LineSource::Ahead => true,
        LineSource::Awaited => input.is_none(),
        LineSource::Ended => false,
    }
}

/// The descriptor of an input, if the system can watch it.
fn watched(poll: &Poll, input: Option<RawFd>) -> Option<RawFd> {
    let input = input?;
    match poll
        .registry()
        .register(&mut SourceFd(&input), INPUT, Interest::READABLE)
    {
        Ok(()) => Some(input),
        Err(_) => None,
    }
}
