//! A logical datagram that has all process data of a slave that is set up as usual: it takes the outputs and gives the inputs by
//! one copy each. They are the values of managers 2 and 3, or lie in the RAM itself.

ghost use Rattle.std.specs.Prelude.{◌≡◌, ◌+◌, ◌-◌, ◌*◌, ◌<◌, ◌≤◌, ◌^◌, ◌&&◌, if◌then◌else◌, length, nat_lt, set};
ghost use Rattle.std.specs.Int.{from_bool};
ghost use Rattle.ec_bits.specs.Bits.{bytes_of_bits, copied};
ghost use Rattle.ec_regs.specs.Memory.{ram_end};
ghost use Rattle.ec_fmmu.specs.Areas.{area, Spans};
ghost use Rattle.ec_sync.specs.SyncManager.{may_read, may_write};
ghost use Rattle.ec_exchange.specs.Values.{IsBufferAt, inputs_into, manager_at, outputs_from, with_published};
ghost use Rattle.ec_slave.specs.Exchange.{IsMapped};
ghost use Rattle.ec_slave.specs.Mapped.{at_bits, mapped_met, weight};
ghost use Rattle.ec_slave.specs.Roles.{is_reading, is_writing};
ghost use Rattle.ec_slave.specs.Usual.{IsPlain};

use crate::role::Role;
use crate::slave::Slave;
use ec_exchange::{get_inputs, give_inputs, put_outputs, take_outputs};
use ec_fmmu::MappedArea;
use ec_sync::SyncManager;

/// Exchanges a whole area that managers 2 and 3 hold: takes the outputs first, as they came, and then gives the inputs. Returns
/// what the working counter grows by.
fn exchange_values(
    managers: &mut [SyncManager],
    mapped: &MappedArea,
    role: Role,
    from: u64,
    bytes: &mut [u8],
) -> u16
    requires small { from + 8 * length bytes.old < 2 ^ 64 }
    requires four { length managers.old ≡ 4 }
    requires outs { 0 < mapped.now.outs → IsBufferAt (manager_at managers.old 2).settings mapped.now.out_start (bytes_of_bits mapped.now.outs) }
    requires ins { 0 < mapped.now.ins → IsBufferAt (manager_at managers.old 3).settings mapped.now.in_start (bytes_of_bits mapped.now.ins) }
    requires spans { Spans (record { from = from; bits = 8 * length bytes.old }) (area mapped.now) }
    ensures managers { let m = manager_at managers.old 2 in
        managers.new ≡ (if is_writing role && (nat_lt 0 mapped.now.outs && may_write m)
        then set managers.old 2 (with_published m (outputs_from (area mapped.now) (at_bits from bytes.old) bytes.old)) else managers.old) }
    ensures bytes { let m = manager_at managers.old 3 in
        bytes.new ≡ (if is_reading role && (nat_lt 0 mapped.now.ins && may_read m)
        then inputs_into (area mapped.now) (at_bits from bytes.old) m.buffer.published bytes.old else bytes.old) }
    ensures added { result ≡ from_bool (is_reading role && (nat_lt 0 mapped.now.ins && may_read (manager_at managers.old 3)))
        + weight role * from_bool (is_writing role && (nat_lt 0 mapped.now.outs && may_write (manager_at managers.old 2))) }
{
    let is_written = role.writes() && take_outputs(&mut managers[2], mapped, from, bytes);
    let is_read = role.reads() && give_inputs(&managers[3], mapped, from, bytes);
    role.count(is_read, is_written)
}

/// Exchanges a whole area that lies in the memory itself: copies the outputs there first, as they came, and then the inputs from
/// there. Returns what the working counter grows by.
fn exchange_memory(
    memory: &mut [u8],
    mapped: &MappedArea,
    role: Role,
    from: u64,
    bytes: &mut [u8],
) -> u16
    requires small { from + 8 * length bytes.old < 2 ^ 64 }
    requires room { length memory.old ≡ ram_end }
    requires outs { mapped.now.out_start + bytes_of_bits mapped.now.outs ≤ ram_end }
    requires ins { mapped.now.in_start + bytes_of_bits mapped.now.ins ≤ ram_end }
    requires spans { Spans (record { from = from; bits = 8 * length bytes.old }) (area mapped.now) }
    ensures memory { memory.new ≡ (if is_writing role
        then copied memory.old (8 * mapped.now.out_start) bytes.old (mapped.now.out_at - from) mapped.now.outs else memory.old) }
    ensures bytes { bytes.new ≡ (if is_reading role
        then copied bytes.old (mapped.now.in_at - from) memory.new (8 * mapped.now.in_start) mapped.now.ins else bytes.old) }
    ensures added { result ≡ from_bool (is_reading role && nat_lt 0 mapped.now.ins) + weight role * from_bool (is_writing role && nat_lt 0 mapped.now.outs) }
{
    let (reads, writes) = (role.reads(), role.writes());
    if writes {
        put_outputs(memory, mapped, from, bytes);
    }
    if reads {
        get_inputs(memory, mapped, from, bytes);
    }
    role.count(reads & (mapped.ins > 0), writes & (mapped.outs > 0))
}

impl Slave {
    /// Exchanges the whole area: takes its outputs first, as they came, and then gives the inputs.
    pub(super) fn exchange_area(
        &mut self,
        mapped: &MappedArea,
        role: Role,
        from: u64,
        bytes: &mut [u8],
    ) -> u16
        requires small { from + 8 * length bytes.old < 2 ^ 64 }
        requires mapped { IsMapped self.old (area mapped.now) }
        requires spans { Spans (record { from = from; bits = 8 * length bytes.old }) (area mapped.now) }
        ensures slave { self.new ≡ (mapped_met self.old role (record { from = from; bits = 8 * length bytes.old }) bytes.old).slave }
        ensures bytes { bytes.new ≡ (mapped_met self.old role (record { from = from; bits = 8 * length bytes.old }) bytes.old).bytes }
        ensures added { result ≡ (mapped_met self.old role (record { from = from; bits = 8 * length bytes.old }) bytes.old).added }
    {
        exchange_values(&mut self.managers, mapped, role, from, bytes)
    }

    /// Exchanges the whole area, which lies in the RAM itself: copies its outputs there first, as they came, and then the inputs
    /// from there. No bit of the inputs is an output.
    pub(super) fn exchange_plain(
        &mut self,
        mapped: &MappedArea,
        role: Role,
        from: u64,
        bytes: &mut [u8],
    ) -> u16
        requires small { from + 8 * length bytes.old < 2 ^ 64 }
        requires plain { IsPlain self.old (area mapped.now) }
        requires spans { Spans (record { from = from; bits = 8 * length bytes.old }) (area mapped.now) }
        ensures slave { self.new ≡ (mapped_met self.old role (record { from = from; bits = 8 * length bytes.old }) bytes.old).slave }
        ensures bytes { bytes.new ≡ (mapped_met self.old role (record { from = from; bits = 8 * length bytes.old }) bytes.old).bytes }
        ensures added { result ≡ (mapped_met self.old role (record { from = from; bits = 8 * length bytes.old }) bytes.old).added }
    {
        exchange_memory(&mut self.memory, mapped, role, from, bytes)
    }
}
