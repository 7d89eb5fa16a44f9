//! Which registers a datagram may read and write.
ghost use Rattle.std.specs.Prelude.{◌≡◌, ◌==◌, ◌||◌, nat_lt};
ghost use Rattle.ec_regs.specs.Memory.{is_stored as is_stored_at, takes_writes as takes_writes_at};

use crate::registers::{
    AL_CONTROL, FMMUS, FMMUS_END, MANAGER_SIZE, SII_CONTROL, SII_DATA, STATION_ADDRESS,
    SYNC_MANAGERS, SYNC_MANAGERS_END,
};
use ec_bits::within;

/// How many bytes a register of a word has.
const WORD: usize = 2;

/// Whether a register byte becomes what a datagram writes: station address, AL control, FMMUs, and
/// the settings of the sync managers.
pub fn is_stored(address: usize) -> bool
    ensures { result ≡ is_stored_at address }
{
    within(STATION_ADDRESS, WORD, address)
        || within(AL_CONTROL, WORD, address)
        || within(FMMUS, FMMUS_END - FMMUS, address)
        || (within(SYNC_MANAGERS, SYNC_MANAGERS_END - SYNC_MANAGERS, address)
            && is_setting(address % MANAGER_SIZE))
}

/// Whether a write to a register byte takes effect, while the SII port is busy or not.
pub fn takes_writes(address: usize, is_busy: bool) -> bool
    ensures { result ≡ takes_writes_at is_busy address }
{
    is_stored(address) || (within(SII_CONTROL, SII_DATA - SII_CONTROL, address) && !is_busy)
}

/// Whether a sync manager's byte, 0 to 7, is one of its settings: start, length, control and
/// activate.
fn is_setting(byte: usize) -> bool
    ensures { result ≡ (nat_lt byte 5 || (byte == 6)) }
{
    byte < 5 || byte == 6
}
