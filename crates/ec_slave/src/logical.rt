//! Logical datagrams (LRD, LWR and LRW): what one reads through the FMMUs, what it writes, and what
//! it does to the sync managers (ETG.1000.4, "Fieldbus memory management unit").
//!
//! A datagram is given by its first logical bit and its data: bit `8 * k + j` of the data is the
//! logical bit `from + 8 * k + j`. Nothing here takes memory.

ghost use Rattle.std.specs.Prelude.{◌≡◌, ◌+◌, ◌*◌, ◌<◌, ◌^◌, true, false, length};
ghost use Rattle.std.specs.Bool.{OnTrue};
ghost use Rattle.ec_bits.specs.Bits.{overlay};
ghost use Rattle.ec_fmmu.specs.Areas.{area, IsMappedBy, Spans};
ghost use Rattle.ec_slave.specs.State.{fmmus};
ghost use Rattle.ec_slave.specs.LogicalLaws.{Misses};
ghost use Rattle.ec_slave.specs.Logical.{logical_after, read_bit, some_read, some_written};
ghost use Rattle.ec_slave.specs.Mapped.{FitsFrame, MayWriteFirst, bytes_exchanged, count_exchanged, mapped_met, slave_exchanged};

mod exchange;
mod managers;
mod reading;
mod writing;

use crate::logical::managers::access_managers;
use crate::logical::reading::read_logical;
use crate::logical::writing::write_logical;
use crate::passing::MAX_DATA;
use crate::role::Role;
use crate::slave::Slave;
use ec_exchange::{is_held, is_plain, spanned_area};
use ec_fmmu::MappedArea;

impl Slave {
    /// Whether no FMMU has one of so many logical bits in its range, so that a datagram over them
    /// passes at the price of a few compares. False says nothing.
    pub(crate) fn misses(&self, from: u64, bits: u64) -> bool
        requires { from + bits < 2 ^ 64 }
        ensures { OnTrue result (Misses self.now (record { from = from; bits = bits })) }
    {
        self.fmmus.is_outside(from, bits)
    }

    /// Meets the bits of a datagram in a role, and returns what the working counter grows by. Whether
    /// it concerns the slave at all is asked before, by `misses`. Most often it has all process data
    /// of a slave that is set up as usual, which is a copy each way.
    pub(crate) fn access_bits(&mut self, role: Role, from: u64, bytes: &mut [u8]) -> u16
        requires small { from + 8 * length bytes.old < 2 ^ 64 }
        requires few { length bytes.old < 2048 }
        ensures slave { self.new ≡ (mapped_met self.old role (record { from = from; bits = 8 * length bytes.old }) bytes.old).slave }
        ensures bytes { bytes.new ≡ (mapped_met self.old role (record { from = from; bits = 8 * length bytes.old }) bytes.old).bytes }
        ensures added { result ≡ (mapped_met self.old role (record { from = from; bits = 8 * length bytes.old }) bytes.old).added }
    {
        if let Some(mapped) = spanned_area(&self.fmmus, from, 8 * bytes.len() as u64) {
            if is_held(&self.managers, &mapped) {
                return self.exchange_area(&mapped, role, from, bytes);
            }
            return self.access_unheld(&mapped, role, from, bytes);
        }
        self.access_any_bits(role, from, bytes)
    }

    /// As [`Slave::access_bits`], for a datagram with a whole area that managers don't hold as usual. If it lies in the RAM itself,
    /// that is a copy each way, too. It is a function of its own, since few slaves are set up so.
    #[inline(never)]
    fn access_unheld(&mut self, mapped: &MappedArea, role: Role, from: u64, bytes: &mut [u8]) -> u16
        requires small { from + 8 * length bytes.old < 2 ^ 64 }
        requires few { length bytes.old < 2048 }
        requires mapped { IsMappedBy (fmmus self.old) mapped.now }
        requires spans { Spans (record { from = from; bits = 8 * length bytes.old }) (area mapped.now) }
        ensures slave { self.new ≡ (mapped_met self.old role (record { from = from; bits = 8 * length bytes.old }) bytes.old).slave }
        ensures bytes { bytes.new ≡ (mapped_met self.old role (record { from = from; bits = 8 * length bytes.old }) bytes.old).bytes }
        ensures added { result ≡ (mapped_met self.old role (record { from = from; bits = 8 * length bytes.old }) bytes.old).added }
    {
        if is_plain(&self.managers, mapped) {
            return self.exchange_plain(mapped, role, from, bytes);
        }
        self.access_any_bits(role, from, bytes)
    }

    /// A datagram that reads and writes. It copies its data only if a bit that is read may also
    /// be written.
    fn exchange_bits(&mut self, from: u64, bytes: &mut [u8]) -> u16
        requires { FitsFrame from bytes.old }
        ensures slave { self.new ≡ slave_exchanged self.old from bytes.old }
        ensures bytes { bytes.new ≡ bytes_exchanged self.old from bytes.old }
        ensures added { result ≡ count_exchanged self.old from bytes.old }
    {
        if self.may_write_first() {
            self.write_and_read_bits(from, bytes)
        } else {
            self.read_write_copied_bits(from, bytes)
        }
    }

    /// A datagram that reads and writes, and may write first: its data need no copy.
    fn write_and_read_bits(&mut self, from: u64, bytes: &mut [u8]) -> u16
        requires small { from + 8 * length bytes.old < 2 ^ 64 }
        requires first { MayWriteFirst self.old }
        ensures slave { self.new ≡ slave_exchanged self.old from bytes.old }
        ensures bytes { bytes.new ≡ bytes_exchanged self.old from bytes.old }
        ensures added { result ≡ count_exchanged self.old from bytes.old }
    {
        let is_written = self.write_bits(false, from, bytes);
        self.read_bits(from, bytes) as u16 + 2 * is_written as u16
    }

    /// Whether no bit of the memory that is read is one that is written, so that a datagram may
    /// write first. False says nothing.
    fn may_write_first(&self) -> bool
        ensures { OnTrue result (MayWriteFirst self.now) }
    {
        self.fmmus.is_apart()
    }

    /// A datagram that reads and writes, with a copy of the data as they were received.
    #[inline(never)]
    fn read_write_copied_bits(&mut self, from: u64, bytes: &mut [u8]) -> u16
        requires { FitsFrame from bytes.old }
        ensures slave { self.new ≡ slave_exchanged self.old from bytes.old }
        ensures bytes { bytes.new ≡ bytes_exchanged self.old from bytes.old }
        ensures added { result ≡ count_exchanged self.old from bytes.old }
    {
        let mut copy = [0; MAX_DATA];
        let received = &mut copy[..bytes.len()];
        received.copy_from_slice(bytes);
        let is_read = read_logical(&self.memory, &self.managers, &self.fmmus, from, bytes);
        let is_written = self.write_bits(true, from, received);
        is_read as u16 + 2 * is_written as u16
    }

    /// A datagram that writes through the FMMUs, and may read as well. Returns whether a bit was written.
    fn write_bits(&mut self, reading: bool, from: u64, bytes: &[u8]) -> bool
        requires { from + 8 * length bytes.now < 2 ^ 64 }
        ensures slave { self.new ≡ logical_after self.old reading true (record { from = from; bits = 8 * length bytes.now }) bytes.now }
        ensures some { result ≡ some_written self.old.managers (fmmus self.old) (record { from = from; bits = 8 * length bytes.now }) bytes.now }
    {
        let fmmus = &self.fmmus;
        let in_memory = write_logical(&mut self.memory, &self.managers, fmmus, from, bytes);
        let in_manager = access_managers(&mut self.managers, reading, true, fmmus, from, bytes);
        in_memory | in_manager
    }

    /// A datagram that reads through the FMMUs. Returns whether a bit was read.
    fn read_bits(&mut self, from: u64, bytes: &mut [u8]) -> bool
        requires { from + 8 * length bytes.old < 2 ^ 64 }
        ensures slave { self.new ≡ logical_after self.old true false (record { from = from; bits = 8 * length bytes.old }) bytes.old }
        ensures bytes { bytes.new ≡ overlay bytes.old (read_bit self.old.memory self.old.managers (fmmus self.old) (record { from = from; bits = 8 * length bytes.old })) }
        ensures some { result ≡ some_read self.old.memory self.old.managers (fmmus self.old) (record { from = from; bits = 8 * length bytes.old }) }
    {
        let is_read = read_logical(&self.memory, &self.managers, &self.fmmus, from, bytes);
        access_managers(&mut self.managers, true, false, &self.fmmus, from, bytes);
        is_read
    }

    /// Meets the bits of a datagram in a role, whatever the FMMUs and the managers are.
    #[inline(never)]
    fn access_any_bits(&mut self, role: Role, from: u64, bytes: &mut [u8]) -> u16
        requires small { from + 8 * length bytes.old < 2 ^ 64 }
        requires few { length bytes.old < 2048 }
        ensures slave { self.new ≡ (mapped_met self.old role (record { from = from; bits = 8 * length bytes.old }) bytes.old).slave }
        ensures bytes { bytes.new ≡ (mapped_met self.old role (record { from = from; bits = 8 * length bytes.old }) bytes.old).bytes }
        ensures added { result ≡ (mapped_met self.old role (record { from = from; bits = 8 * length bytes.old }) bytes.old).added }
    {
        match role {
            Role::Nothing => 0,
            Role::Read | Role::OrRead => self.read_bits(from, bytes) as u16,
            Role::Write => self.write_bits(false, from, bytes) as u16,
            Role::ReadWrite | Role::OrReadWrite => self.exchange_bits(from, bytes),
        }
    }
}
