//! Writes a logical datagram into the memory itself.

ghost use Rattle.std.specs.Prelude.{◌≡◌, ◌<◌, ◌+◌, ◌*◌, ◌^◌, length};
ghost use Rattle.ec_regs.specs.Memory.{ram_end};
ghost use Rattle.ec_bits.specs.Bits.{overlay};
ghost use Rattle.ec_fmmu.specs.Applied.{LogicalSpan};
ghost use Rattle.ec_slave.specs.Logical.{plain_bit};
ghost use Rattle.ec_slave.specs.Written.{some_plain_written};

use crate::runs::end_of_alike;
use ec_exchange::governor;
use ec_fmmu::{FmmuTable, WritableBytes, apply_write};
use ec_sync::SyncManager;

/// The bytes that no manager governs.
#[derive(Clone, Copy)]
pub(super) struct Ungoverned<'a> {
    pub(super) managers: &'a [SyncManager],
}

impl WritableBytes for Ungoverned<'_> {
    ghost use Rattle.std.specs.Prelude.{is_none};
    ghost use Rattle.ec_sync.specs.Governing.{governor};

    ghost can_allow = { λ _. Unit {0} };

    ghost allowed = { λ u a. is_none (governor u.managers.now a) };

    fn is_allowed(&self, address: u16) -> bool {
        governor(self.managers, address as usize).is_none()
    }

    fn count_alike(&self, start: u16, len: usize) -> usize {
        let first = start as usize;
        end_of_alike(self.managers, first, first + len) - first
    }
}

/// Writes the data of a logical datagram whose first logical bit is `from` into the memory itself:
/// each bit to which the write set brings a data bit and that no manager governs. Returns whether a
/// bit was written.
pub(crate) fn write_logical(
    memory: &mut [u8],
    managers: &[SyncManager],
    fmmus: &FmmuTable,
    from: u64,
    bytes: &[u8],
) -> bool
    requires room { length memory.old ≡ ram_end }
    requires fits { from + 8 * length bytes.now < 2 ^ 64 }
    ensures memory { let place : LogicalSpan = record { from = from; bits = 8 * length bytes.now } in
        memory.new ≡ overlay memory.old (plain_bit managers.now fmmus.now place bytes.now) }
    ensures any { let place : LogicalSpan = record { from = from; bits = 8 * length bytes.now } in
        result ≡ some_plain_written managers.now fmmus.now place bytes.now }
{
    apply_write(fmmus, &Ungoverned { managers }, from, bytes, 0, memory)
}
