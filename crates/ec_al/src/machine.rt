//! The AL state machine of a slave.
ghost use Rattle.std.specs.Prelude.{◌≡◌, ◌<◌, ◌↔◌, IsTrue, false};
ghost use Rattle.ec_al.specs.Al.{copied, power_on, requesting, waiting, stepped, faulted, is_shown as is_indicated, status_word};
ghost use Rattle.ec_al.specs.declared.state.State.TheVariants.{Op};

use crate::state::State;
use crate::status_code::StatusCode;
use crate::transition::{Checks, Requested};
use ec_regs::AlWord;
use std::marker::Model;

/// The error bit of the AL status word, and what set it.
#[derive(Clone, Copy, Debug, PartialEq, Eq)]
enum Indication {
    /// The bit is clear.
    Clear,
    /// An error set it.
    Code(StatusCode),
    /// It is the acknowledge bit of AL control, which a device without firmware copies.
    Copied,
}

impl Indication {
    /// Whether the bit is set.
    fn is_shown(self) -> bool
        ensures { result ≡ is_indicated self }
    {
        match self {
            Indication::Clear => false,
            Indication::Code(_) | Indication::Copied => true,
        }
    }
}

/// The AL state machine of one slave: its state, its error, and whether a request waits for the firmware.
/// A contract sees it as an `Al` of specs/, where the error is a flag and a code.
#[derive(Debug, Drop)]
pub struct Al {
    state: State,
    error: Indication,
    is_requested: bool,
    // how many steps let the request wait
    waited: u8,
}

impl Model for Al {
    ghost use Rattle.ec_al.specs.Al.{Al, is_shown, shown_code};

    ghost Value = { Al };

    ghost view = { λ a. record {
      state = a.state;
      error = is_shown a.error;
      code = shown_code a.error;
      requested = a.is_requested;
      waited = a.waited;
    } };
}

impl Al {
    /// A state machine as a slave powers on: INIT, no error, no request.
    pub fn new() -> Self
        ensures { result ≡ power_on }
    {
        Al {
            state: State::Init,
            error: Indication::Clear,
            is_requested: false,
            waited: 0,
        }
    }

    /// The master wrote the AL control word: a new request waits from now on.
    pub fn request(&mut self)
        ensures { self.new ≡ requesting self.old }
    {
        self.is_requested = true;
        self.waited = 0;
    }

    /// A firmware step of a slow device, which lets the request wait.
    pub fn wait(&mut self)
        requires { self.old.waited < 255 }
        ensures { self.new ≡ waiting self.old }
    {
        self.waited += 1;
    }

    /// A firmware step. It decides a request that waits by the AL control word as it now stands, and the request waits no
    /// longer. Without a request nothing changes.
    pub fn step(&mut self, control: u16, checks: Checks)
        ensures { self.new ≡ stepped self.old control checks }
    {
        if !self.is_requested {
            return;
        }
        self.is_requested = false;
        self.waited = 0;
        if self.error.is_shown() && !AlWord(control).acknowledges() {
            return;
        }
        match self.state.answer(Requested::of(control), checks) {
            Ok(state) => {
                self.state = state;
                self.error = Indication::Clear;
            }
            Err(code) => self.error = Indication::Code(code),
        }
    }

    /// A step of a device without firmware. State and acknowledge bit of the AL control word become the state and the error
    /// bit, if they name a state; nothing is checked. A request waits no longer.
    pub fn copy(&mut self, control: u16)
        ensures { self.new ≡ copied self.old control }
    {
        self.is_requested = false;
        self.waited = 0;
        let Requested::To(state) = Requested::of(control) else {
            return;
        };
        self.state = state;
        self.error = if AlWord(control).acknowledges() {
            Indication::Copied
        } else {
            Indication::Clear
        };
    }

    /// A fault of the application. In OP it leads to SAFEOP with an error, and returns true. In any other state it returns
    /// false and changes nothing. A request that waits still waits.
    pub fn fault(&mut self) -> bool
        ensures taken { IsTrue result ↔ (self.old.state ≡ Op) }
        ensures state { self.new ≡ faulted self.old }
    {
        if self.state == State::Op {
            self.state = State::SafeOp;
            self.error = Indication::Code(StatusCode::Unspecified);
            true
        } else {
            false
        }
    }

    /// Puts the state machine back to power-on.
    pub fn reset(&mut self)
        ensures { self.new ≡ power_on }
    {
        *self = Al::new();
    }

    /// The state.
    pub fn state(&self) -> State
        ensures { result ≡ self.now.state }
    {
        self.state
    }

    /// Whether there is an error, bit 4 of the AL status word.
    pub fn has_error(&self) -> bool
        ensures { result ≡ self.now.error }
    {
        self.error.is_shown()
    }

    /// The AL status code. It is 0 without an error, and beside an error bit that was copied.
    pub fn code(&self) -> u16
        ensures value { result ≡ self.now.code }
        ensures sound { self.now.error ≡ false → self.now.code ≡ 0 }
    {
        match self.error {
            Indication::Code(code) => code.number(),
            Indication::Clear | Indication::Copied => 0,
        }
    }

    /// Whether a request waits for a firmware step.
    pub fn is_requested(&self) -> bool
        ensures { result ≡ self.now.requested }
    {
        self.is_requested
    }

    /// How many firmware steps let the request wait.
    pub fn waited(&self) -> u8
        ensures { result ≡ self.now.waited }
    {
        self.waited
    }

    /// The AL status word (ETG.1000.6, "AL status"): the state's number and the error.
    #[tactic(auto, using(crate::proofs::RunLemmas::small_number))]
    pub fn status_word(&self) -> u16
        ensures { result ≡ status_word self.now }
    {
        AlWord::new(self.state.number() as u8, self.error.is_shown()).0
    }
}
