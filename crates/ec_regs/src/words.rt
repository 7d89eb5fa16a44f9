//! Register words whose bits have names.

ghost use Rattle.std.specs.Prelude.{⊤, ◌≡◌, ◌<◌, [], ◌∷◌, codes};
ghost use Rattle.ec_regs.specs.Words.{al_state, al_flag, al_word, sii_command, sii_error, sii_busy, sii_word};

use bitflags::{Flag, Flags, bitflag_items};

/// The word of AL control or AL status (ETG.1000.4, "AL control", "AL status"): in bits 0 to 3 a
/// state's number, and a flag in bit 4.
#[derive(Clone, Copy, PartialEq, Eq, Debug)]
pub struct AlWord(pub u16);

bitflag_items! {
    impl AlWord: u16 {
        const ERROR = 0x0010;
    }
}

impl Flags for AlWord {
    type Bits = u16;

    ghost exact = { ⊤ };

    ghost table = { (codes "ERROR", 16) ∷ [] };

    ghost set_of = { λ w. w.0 };

    fn flags<'a>() -> &'a [Flag<AlWord>] {
        AlWord::FLAGS
    }

    fn bits(&self) -> u16 {
        self.0
    }

    fn from_bits_retain(bits: u16) -> AlWord {
        AlWord(bits)
    }
}

impl AlWord {
    /// The word of a state's number, 0 to 15, and the flag: the error of a status word, the
    /// acknowledge of a control word.
    pub fn new(state: u8, flag: bool) -> Self
        requires { state < 16 }
        ensures { result.0 ≡ al_word state flag }
    {
        AlWord(state as u16 + 16 * flag as u16)
    }

    /// The state's number, bits 0 to 3; in a control word the state that is asked for.
    pub fn state(self) -> u8
        ensures { result ≡ al_state self.0 }
    {
        (self.0 % 16) as u8
    }

    /// Whether a status word shows an error.
    pub fn has_error(self) -> bool
        ensures { result ≡ al_flag self.0 }
    {
        self.contains(AlWord::ERROR)
    }

    /// Whether a control word acknowledges an error, by the bit that shows one in a status word.
    pub fn acknowledges(self) -> bool
        ensures { result ≡ al_flag self.0 }
    {
        self.has_error()
    }
}

/// The word of SII control and status (ETG.1000.4, "SII control/status"): in bits 8 to 10 a command,
/// in bit 13 whether it failed, in bit 15 whether it is being worked on.
#[derive(Clone, Copy, PartialEq, Eq, Debug)]
pub struct SiiControl(pub u16);

bitflag_items! {
    impl SiiControl: u16 {
        const ERROR = 0x2000;
        const BUSY = 0x8000;
    }
}

impl Flags for SiiControl {
    type Bits = u16;

    ghost exact = { ⊤ };

    ghost table = { (codes "ERROR", 0x2000) ∷ (codes "BUSY", 0x8000) ∷ [] };

    ghost set_of = { λ w. w.0 };

    fn flags<'a>() -> &'a [Flag<SiiControl>] {
        SiiControl::FLAGS
    }

    fn bits(&self) -> u16 {
        self.0
    }

    fn from_bits_retain(bits: u16) -> SiiControl {
        SiiControl(bits)
    }
}

impl SiiControl {
    /// The word of a command, 0 to 7, and the two flags.
    pub fn new(command: u8, has_error: bool, is_busy: bool) -> Self
        requires { command < 8 }
        ensures { result.0 ≡ sii_word command has_error is_busy }
    {
        SiiControl(256 * command as u16 + 0x2000 * has_error as u16 + 0x8000 * is_busy as u16)
    }

    /// The command, bits 8 to 10: 0 nothing, 1 read.
    pub fn command(self) -> u8
        ensures { result ≡ sii_command self.0 }
    {
        (self.0 / 256 % 8) as u8
    }

    /// Whether the last command was refused or failed.
    pub fn has_error(self) -> bool
        ensures { result ≡ sii_error self.0 }
    {
        self.contains(SiiControl::ERROR)
    }

    /// Whether a command is being worked on.
    pub fn is_busy(self) -> bool
        ensures { result ≡ sii_busy self.0 }
    {
        self.contains(SiiControl::BUSY)
    }
}
