//! Physical datagrams at a slave.

ghost use Rattle.std.specs.Prelude.{◌≡◌, ◌+◌, ◌*◌, ◌<◌, ◌≤◌, ◌^◌, ◌&&◌, ℕ, true, false, Some, None, IfSome, length, [], slice_index, bit_or, if◌then◌else◌, nat_lt};
ghost use Rattle.ec_regs.specs.Memory.{al_control, al_status, fmmu_start, ram_start, ram_end};
ghost use Rattle.ec_sync.specs.Governing.{governor as governor_of};
ghost use Rattle.ec_al.specs.Al.{requesting};
ghost use Rattle.std.specs.Int.{from_bool};
ghost use Rattle.ec_bits.specs.Bits.{within};
ghost use Rattle.ec_sii.specs.Port.{written};
ghost use Rattle.ec_slave.specs.Physical.{byte_at, byte_read, may_read_byte, physical_managers, physical_met, updated, physical_after, some_byte_read, is_written};
ghost use Rattle.ec_slave.specs.State.{fmmus_of};

mod bytes;
mod managers;

use crate::fmmus::read_fmmus;
use crate::passing::MAX_DATA;
use crate::physical::bytes::{end_of_part, read_over, read_slice, reads_byte, write_memory};
use crate::physical::managers::access_managers;
use crate::role::Role;
use crate::slave::Slave;
use ec_al::Al;
use ec_bits::within;
use ec_device::SlaveType;
use ec_exchange::owner_of;
use ec_fmmu::FmmuTable;
use ec_regs::registers::{AL_CONTROL, AL_STATUS, FMMUS, FMMUS_END, RAM_START, SYNC_MANAGERS};
use ec_sii::Port;
use ec_sync::SyncManager;

/// Marks an AL request, or not.
fn request_if(al: &mut Al, is_written: bool)
    ensures { al.new ≡ (if is_written then requesting al.old else al.old) }
{
    if is_written {
        al.request();
    }
}

/// Writes to the AL and the SII port. A write that begins in the RAM concerns neither.
#[tactic(auto, using(crate::proofs::Memory::PortAside::port_aside))]
fn write_control(al: &mut Al, port: &mut Port, from: usize, bytes: &[u8])
    requires { from + length bytes.now < 2 ^ 32 }
    ensures al { al.new ≡ (if within from (length bytes.now) al_control then requesting al.old else al.old) }
    ensures port { port.new ≡ written port.old from bytes.now }
{
    if RAM_START <= from {
        port.is_sound();
        return;
    }
    request_if(al, within(from, bytes.len(), AL_CONTROL));
    port.write(from, bytes);
}

/// Decodes the FMMUs again after a write of `len` bytes that begin at `from`, if it reaches their registers.
fn renew_fmmus(fmmus: &mut FmmuTable, kind: &SlaveType, memory: &[u8], from: usize, len: usize)
    requires room { length memory.now ≡ ram_end }
    requires small { from + len < 2 ^ 32 }
    ensures { fmmus.new ≡ (if nat_lt from (fmmu_start 4) && nat_lt (fmmu_start 0) (from + len) then fmmus_of kind.now.hardware memory.now else fmmus.old) }
{
    if from < FMMUS_END && FMMUS < from + len {
        *fmmus = read_fmmus(kind, memory);
    }
}

/// Writes to the managers. A write below their registers, and so below the RAM, concerns none of them.
fn write_managers(
    kind: &SlaveType,
    managers: &mut [SyncManager],
    reads: bool,
    from: usize,
    bytes: &[u8],
)
    requires four { length managers.old ≡ 4 }
    requires small { from + length bytes.now < 2 ^ 32 }
    ensures { managers.new ≡ physical_managers kind.now.hardware [] reads true (record { from = from; bytes = bytes.now }) 0 managers.old }
{
    if from + bytes.len() > SYNC_MANAGERS {
        access_managers(kind, managers, reads, true, from, bytes);
    }
}

impl Slave {
    /// Meets the bytes of a datagram in a role, and returns what the working counter grows by.
    #[tactic(auto, using(crate::proofs::Memory::SlaveIdle::slave_idle), unfolding(crate::specs::Physical::physical_met))]
    pub(crate) fn access_bytes(&mut self, role: Role, from: usize, bytes: &mut [u8]) -> u16
        requires small { from + length bytes.old < 2 ^ 32 }
        requires few { length bytes.old < 2048 }
        ensures slave { self.new ≡ (physical_met self.old role (record { from = from; bytes = bytes.old })).slave }
        ensures bytes { bytes.new ≡ (physical_met self.old role (record { from = from; bytes = bytes.old })).bytes }
        ensures added { result ≡ (physical_met self.old role (record { from = from; bytes = bytes.old })).added }
    {
        match role {
            Role::Nothing => 0,
            Role::Read => self.read_bytes(false, from, bytes),
            Role::OrRead => self.read_bytes(true, from, bytes),
            Role::Write => self.write_bytes(false, from, bytes) as u16,
            Role::ReadWrite => self.read_write_copied_bytes(false, from, bytes),
            Role::OrReadWrite => self.read_write_copied_bytes(true, from, bytes),
        }
    }

    /// A datagram that reads and writes, with a copy of the bytes as they were received.
    #[inline(never)]
    fn read_write_copied_bytes(&mut self, joining: bool, from: usize, bytes: &mut [u8]) -> u16
        requires small { from + length bytes.old < 2 ^ 32 }
        requires few { length bytes.old < 2048 }
        ensures slave { self.new ≡ physical_after self.old true true (record { from = from; bytes = bytes.old }) }
        ensures bytes { bytes.new ≡ updated bytes.old (byte_read self.old joining (record { from = from; bytes = bytes.old })) }
        ensures added { result ≡ from_bool (some_byte_read self.old.managers (record { from = from; bytes = bytes.old }))
            + 2 * from_bool (is_written self.old (record { from = from; bytes = bytes.old })) }
    {
        let mut copy = [0; MAX_DATA];
        let received = &mut copy[..bytes.len()];
        received.copy_from_slice(bytes);
        let is_read = self.read_physical(joining, from, bytes);
        let is_written = self.write_bytes(true, from, received);
        is_read as u16 + 2 * is_written as u16
    }

    /// A datagram that reads.
    fn read_bytes(&mut self, joining: bool, from: usize, bytes: &mut [u8]) -> u16
        requires { from + length bytes.old < 2 ^ 32 }
        ensures slave { self.new ≡ physical_after self.old true false (record { from = from; bytes = bytes.old }) }
        ensures bytes { bytes.new ≡ updated bytes.old (byte_read self.old joining (record { from = from; bytes = bytes.old })) }
        ensures added { result ≡ from_bool (some_byte_read self.old.managers (record { from = from; bytes = bytes.old })) }
    {
        let is_read = self.read_physical(joining, from, bytes);
        self.after_read(from, bytes);
        is_read as u16
    }

    /// Changes the managers after a read: each mailbox that it had is empty. A read of registers concerns none of them.
    #[tactic(auto, unfolding(crate::specs::Physical::physical_after))]
    fn after_read(&mut self, from: usize, bytes: &[u8])
        requires { from + length bytes.now < 2 ^ 32 }
        ensures { self.new ≡ physical_after self.old true false (record { from = from; bytes = bytes.now }) }
    {
        if from + bytes.len() > RAM_START {
            let kind = self.dictionary.kind();
            access_managers(kind, &mut self.managers, true, false, from, bytes);
        }
    }

    /// Writes the bytes of a datagram, and returns whether one was written.
    #[tactic(auto, unfolding(crate::specs::Physical::physical_after))]
    fn write_bytes(&mut self, reads: bool, from: usize, bytes: &[u8]) -> bool
        requires small { from + length bytes.now < 2 ^ 32 }
        requires few { length bytes.now < 2048 }
        ensures slave { self.new ≡ physical_after self.old reads true (record { from = from; bytes = bytes.now }) }
        ensures some { result ≡ is_written self.old (record { from = from; bytes = bytes.now }) }
    {
        let is_busy = self.port.is_busy();
        let kind = self.dictionary.kind();
        let is_some = write_memory(kind, &mut self.memory, &self.managers, is_busy, from, bytes);
        write_control(&mut self.al, &mut self.port, from, bytes);
        let is_taken = self.link.write(from, bytes);
        write_managers(kind, &mut self.managers, reads, from, bytes);
        renew_fmmus(&mut self.fmmus, kind, &self.memory, from, bytes.len());
        is_some | is_taken
    }

    /// Reads into the bytes of a datagram, and returns whether one was read. It finds once for each part who governs its bytes
    /// and whether they may be read: all of the part, or none, are.
    fn read_parts(&self, joining: bool, from: usize, bytes: &mut [u8]) -> bool
        requires { from + length bytes.old < 2 ^ 32 }
        ensures bytes { bytes.new ≡ updated bytes.old (byte_read self.now joining (record { from = from; bytes = bytes.old })) }
        ensures some { result ≡ some_byte_read self.now.managers (record { from = from; bytes = bytes.old }) }
    {
        let len = bytes.len();
        let mut is_some = false;
        let mut done = 0;
        while done < len {
            let first = from + done;
            let owner = owner_of(&self.managers, first);
            let count = end_of_part(&self.managers, first, from + len) - first;
            if reads_byte(&self.managers, owner, from, len, first) {
                is_some = true;
                self.read_part(owner, joining, from, done, count, bytes);
            }
            done += count;
        }
        is_some
    }

    /// Reads the AL status word, which masters read most often, into the two bytes of a datagram.
    fn read_status(&self, joining: bool, bytes: &mut [u8])
        requires { length bytes.old ≡ 2 }
        ensures { bytes.new ≡ updated bytes.old (byte_read self.now joining (record { from = al_status; bytes = bytes.old })) }
    {
        let (low, high) = self.status_bytes();
        bytes[0] = read_over(joining, bytes[0], low);
        bytes[1] = read_over(joining, bytes[1], high);
    }

    /// Reads into the bytes of a datagram that lies within the registers, and returns whether one was read. All are,
    /// and no manager governs one.
    fn read_registers(&self, joining: bool, from: usize, bytes: &mut [u8]) -> bool
        requires { from + length bytes.old ≤ ram_start }
        ensures bytes { bytes.new ≡ updated bytes.old (byte_read self.now joining (record { from = from; bytes = bytes.old })) }
        ensures some { result ≡ some_byte_read self.now.managers (record { from = from; bytes = bytes.old }) }
    {
        if from == AL_STATUS && bytes.len() == 2 {
            self.read_status(joining, bytes);
            return true;
        }
        let is_some = !bytes.is_empty();
        for (i, byte) in bytes.iter_mut().enumerate() {
            let visible = self.register(from + i);
            *byte = read_over(joining, *byte, visible);
        }
        is_some
    }

    /// Reads into the bytes of a datagram, and returns whether one was read.
    fn read_physical(&self, joining: bool, from: usize, bytes: &mut [u8]) -> bool
        requires { from + length bytes.old < 2 ^ 32 }
        ensures bytes { bytes.new ≡ updated bytes.old (byte_read self.now joining (record { from = from; bytes = bytes.old })) }
        ensures some { result ≡ some_byte_read self.now.managers (record { from = from; bytes = bytes.old }) }
    {
        if from + bytes.len() <= RAM_START {
            self.read_registers(joining, from, bytes)
        } else {
            self.read_parts(joining, from, bytes)
        }
    }

    /// Reads what the addresses that begin at `first` show into as many bytes, one by one. `owner` is the governor of those that
    /// lie in the RAM.
    #[inline(never)]
    fn read_each(&self, owner: Option<usize>, joining: bool, first: usize, bytes: &mut [u8])
        requires memory { (k : ℕ) → k < length bytes.old → first + k < ram_end }
        requires within { IfSome owner (λ n. n < length self.now.managers) }
        requires owner { (a : ℕ) → ram_start ≤ a → first ≤ a → a < first + length bytes.old → owner ≡ governor_of self.now.managers a }
        ensures { bytes.new ≡ updated bytes.old (λ k. Some (if joining
            then bit_or (slice_index bytes.old k) (byte_at self.now (first + k)) else byte_at self.now (first + k))) }
    {
        for (k, byte) in bytes.iter_mut().enumerate() {
            let visible = self.byte_under(owner, first + k);
            *byte = read_over(joining, *byte, visible);
        }
    }

    /// Reads into the `count` bytes of a datagram that begin at `at`, all of which it reads. `owner` is the governor of those
    /// that lie in the RAM. It is one copy if what they show lies together.
    fn read_part(
        &self,
        owner: Option<usize>,
        joining: bool,
        from: usize,
        at: usize,
        count: usize,
        bytes: &mut [u8],
    )
        requires small { from + length bytes.old < 2 ^ 32 }
        requires inside { at + count ≤ length bytes.old }
        requires reads { (i : ℕ) → at ≤ i → i < at + count → may_read_byte self.now.managers (within from (length bytes.old)) (from + i) ≡ true }
        requires memory { (i : ℕ) → at ≤ i → i < at + count → from + i < ram_end }
        requires within { IfSome owner (λ n. n < length self.now.managers) }
        requires owner { (a : ℕ) → ram_start ≤ a → from + at ≤ a → a < from + at + count → owner ≡ governor_of self.now.managers a }
        ensures { bytes.new ≡ updated bytes.old (λ i. if within at count i then byte_read self.now joining (record { from = from; bytes = bytes.old }) i else None) }
    {
        match self.visible_together(owner, from + at, count) {
            Some(visible) => read_slice(joining, &mut bytes[at..at + count], visible),
            None => self.read_each(owner, joining, from + at, &mut bytes[at..at + count]),
        }
    }
}
