//! A slave: its memory, sync managers, AL state, SII and objects.
ghost use Rattle.std.specs.Prelude.{◌≡◌, ◌+◌, ◌-◌, ◌*◌, ◌/◌, ◌%◌, ◌<◌, ◌≤◌, ◌^◌, ◌||◌, true, ℕ, length, slice_index, IfOk, IfSome, if◌then◌else◌, [], ◌∷◌, Option, Some, None, nat_lt};
ghost use Rattle.ec_bits.specs.Bits.{within, zeros};
ghost use Rattle.ec_regs.specs.Memory.{al_status, ram_start, ram_end, sync_managers};
ghost use Rattle.ec_sync.specs.SyncManager.{no_manager};
ghost use Rattle.ec_sii.specs.SiiImage.{image_of};
ghost use Rattle.ec_sii.specs.Port.{idle_port};
ghost use Rattle.ec_coe.specs.SwitchedOn.{new_dictionary};
ghost use Rattle.ec_sync.specs.Governing.{governor as governor_of};
ghost use Rattle.ec_slave.specs.Physical.{byte_at, numbered_byte, register_byte};
ghost use Rattle.ec_slave.specs.State.{memory_length, power_on, station_of};

use crate::fmmus::read_fmmus;
use crate::numbers::register_of;
use ec_al::Al;
use ec_bits::within;
use ec_coe::Dictionary;
use ec_device::{Identity, SlaveType};
use ec_dl::DataLink;
use ec_exchange::owner_of;
use ec_fmmu::FmmuTable;
use ec_regs::registers::{
    AL_CONTROL, AL_STATUS, AL_STATUS_CODE, FMMUS, FMMUS_END, MANAGER_COUNT, MANAGER_SIZE,
    NUMBER_OF_FMMUS, RAM_END, RAM_KIB, RAM_SIZE, RAM_START, SII_CONTROL, SII_DATA, STATION_ADDRESS,
    SYNC_MANAGERS, SYNC_MANAGERS_END,
};
use ec_sii::{Port, SiiImage};
use ec_sync::SyncManager;
use std::alloc::{AllocError, Global};
use std::marker::Model;

/// The number of bytes of the SII port.
const SII_SIZE: usize = SII_DATA + 4 - SII_CONTROL;
/// The number of bytes of the managers' registers.
const MANAGERS_SIZE: usize = SYNC_MANAGERS_END - SYNC_MANAGERS;

/// A simulated slave.
#[derive(Drop)]
pub struct Slave {
    // its type, its identity, the PDOs that are assigned and its parameters
    pub(crate) dictionary: Dictionary,
    pub(crate) memory: Vec<u8>,
    // as the registers in `memory` state them
    pub(crate) fmmus: FmmuTable,
    pub(crate) managers: Vec<SyncManager>,
    pub(crate) al: Al,
    pub(crate) port: Port,
    pub(crate) link: DataLink,
    // the counter of the last mailbox reply, 0 before the first
    pub(crate) replies: u8,
}

impl Model for Slave {
    ghost use Rattle.ec_slave.specs.State.{SlaveState};
    ghost use Rattle.ec_slave.specs.Held.{IsHeld};

    ghost Value = { SlaveState };

    ghost view = { λ s. record {
      kind = s.dictionary.kind;
      identity = s.dictionary.identity;
      memory = s.memory.items;
      managers = s.managers.items;
      al = s.al;
      sii = s.port;
      link = s.link;
      outs = s.dictionary.outs;
      ins = s.dictionary.ins;
      values = s.dictionary.values;
      replies = s.replies;
    } };

    ghost invariant = { λ s. IsHeld s.dictionary.kind s.dictionary.identity s.memory.items s.managers.items s.fmmus s.port };
}

impl Slave {
    /// A slave of a type that was just switched on. No later call takes memory.
    ///
    /// # Errors
    ///
    /// `AllocError` if there is no memory. The type is lost then: copy it before if you need it again.
    pub fn new(alloc: Global, kind: SlaveType, identity: Identity) -> Result<Slave, AllocError>
        ensures { IfOk result (λ s. s ≡ power_on kind identity) }
    {
        let ram = new_ram(alloc)?;
        let objects = new_objects(alloc, kind, identity)?;
        Ok(Slave::switched_on(ram, objects))
    }

    /// A slave of these parts as the power comes on.
    #[tactic(auto, unfolding(crate::specs::State::power_on))]
    fn switched_on(ram: (Vec<u8>, Vec<SyncManager>), objects: (Dictionary, Port)) -> Slave
        requires memory { ram.0.items ≡ zeros memory_length }
        requires managers { ram.1.items ≡ no_manager ∷ no_manager ∷ no_manager ∷ no_manager ∷ [] }
        requires objects { objects.0 ≡ new_dictionary objects.0.kind objects.0.identity }
        requires image { objects.1 ≡ idle_port (image_of objects.0.kind objects.0.identity) }
        ensures { result ≡ power_on objects.0.kind objects.0.identity }
    {
        let (memory, managers) = ram;
        let (dictionary, port) = objects;
        let fmmus = read_fmmus(dictionary.kind(), &memory);
        let link = DataLink::new(dictionary.kind().face());
        Slave {
            dictionary,
            memory,
            fmmus,
            managers,
            al: Al::new(),
            port,
            link,
            replies: 0,
        }
    }

    /// The station address (registers 0x0010 and 0x0011).
    pub fn station_address(&self) -> u16
        ensures { result ≡ station_of self.now }
    {
        let at = STATION_ADDRESS;
        self.memory[at] as u16 + 256 * self.memory[at + 1] as u16
    }

    /// The byte that a datagram would read at an address now; none past the RAM's end.
    pub fn byte(&self, address: u16) -> Option<u8>
        ensures { result ≡ (if nat_lt address ram_end then Some (byte_at self.now address) else None) }
    {
        let address = address as usize;
        if address < RAM_END {
            Some(self.byte_under(owner_of(&self.managers, address), address))
        } else {
            None
        }
    }

    /// The byte that an address reads. `owner` is its governor, if it lies in the RAM.
    pub(crate) fn byte_under(&self, owner: Option<usize>, address: usize) -> u8
        requires inside { address < ram_end }
        requires within { IfSome owner (λ n. n < length self.now.managers) }
        requires owner { ram_start ≤ address → owner ≡ governor_of self.now.managers address }
        ensures { result ≡ byte_at self.now address }
    {
        if address < RAM_START {
            return self.register(address);
        }
        match owner {
            None => self.memory[address],
            Some(place) => self.managers[place].visible_byte(address),
        }
    }

    /// The bytes that the `count` addresses from `first` read, if they lie together in the RAM itself or in the value of their
    /// governor `owner`. None says nothing.
    pub(crate) fn visible_together(
        &self,
        owner: Option<usize>,
        first: usize,
        count: usize,
    ) -> Option<&[u8]>
        requires inside { first + count < 2 ^ 32 }
        requires within { IfSome owner (λ n. n < length self.now.managers) }
        requires owner { (a : ℕ) → ram_start ≤ a → first ≤ a → a < first + count → owner ≡ governor_of self.now.managers a }
        ensures long { IfSome result (λ xs. length xs.now ≡ count) }
        ensures bytes { IfSome result (λ xs. (k : ℕ) → k < count → slice_index xs.now k ≡ byte_at self.now (first + k)) }
    {
        if first < RAM_START {
            return None;
        }
        match owner {
            None => part_of(&self.memory, first, count),
            Some(place) => {
                let manager = &self.managers[place];
                let start = manager.settings().start as usize;
                // it begins at the first of them or before it, if there is one
                let at = first.saturating_sub(start);
                part_of(manager.visible(), at, count)
            }
        }
    }

    /// The bytes that the two registers of the AL status read, the low byte first.
    #[tactic(auto, unfolding(crate::specs::Physical::byte_at, crate::specs::Physical::register_byte))]
    pub(crate) fn status_bytes(&self) -> (u8, u8)
        ensures low { result.0 ≡ byte_at self.now al_status }
        ensures high { result.1 ≡ byte_at self.now (al_status + 1) }
    {
        let word = self.al.status_word();
        ((word % 256) as u8, (word / 256) as u8)
    }

    /// The byte that a register reads.
    pub(crate) fn register(&self, address: usize) -> u8
        requires { address < ram_start }
        ensures { result ≡ byte_at self.now address }
    {
        if within(NUMBER_OF_FMMUS, 3, address) {
            return self.constant(address);
        }
        if is_in_memory(address) {
            return self.memory[address];
        }
        if within(AL_STATUS, 2, address) {
            return self.al.status_word().to_le_bytes()[address - AL_STATUS];
        }
        if within(AL_STATUS_CODE, 2, address) {
            return self.al.code().to_le_bytes()[address - AL_STATUS_CODE];
        }
        if within(SII_CONTROL, SII_SIZE, address) {
            return self.port.read(address);
        }
        if within(SYNC_MANAGERS, MANAGERS_SIZE, address) {
            return self.manager_register(address);
        }
        self.link.read(address)
    }

    /// The byte that a register reads that says how many FMMUs, managers or KiB of RAM the slave has.
    #[tactic(auto, unfolding(crate::specs::Physical::register_byte))]
    fn constant(&self, address: usize) -> u8
        requires { within 4 3 address ≡ true }
        ensures { result ≡ register_byte self.now address }
    {
        match address {
            RAM_SIZE => RAM_KIB,
            NUMBER_OF_FMMUS => self.dictionary.kind().fmmu_count(),
            _ => MANAGER_COUNT,
        }
    }

    /// The byte that a register of a sync manager reads. They go by the managers' numbers, and by the address that the
    /// outputs have there.
    fn manager_register(&self, address: usize) -> u8
        requires { within 2048 32 address ≡ true }
        ensures { result ≡ numbered_byte self.now.kind.hardware self.now.managers ((address - sync_managers) / 8) (address % 8) }
    {
        let number = (address - SYNC_MANAGERS) / MANAGER_SIZE;
        let kind = self.dictionary.kind();
        register_of(
            kind,
            &self.managers[kind.manager_place(number)],
            address % MANAGER_SIZE,
        )
    }
}

/// Whether a register reads what datagrams stored in the memory.
fn is_in_memory(address: usize) -> bool
    ensures { result ≡ (within 16 2 address || (within 288 2 address || within 1536 64 address)) }
{
    within(STATION_ADDRESS, 2, address)
        || within(AL_CONTROL, 2, address)
        || within(FMMUS, FMMUS_END - FMMUS, address)
}

/// The `count` bytes that begin at `at`, if there are as many.
fn part_of(bytes: &[u8], at: usize, count: usize) -> Option<&[u8]>
    requires { at + count < 2 ^ 64 }
    ensures long { IfSome result (λ xs. length xs.now ≡ count) }
    ensures bytes { IfSome result (λ xs. (k : ℕ) → k < count → slice_index xs.now k ≡ slice_index bytes.now (at + k)) }
{
    if bytes.len() < at + count {
        return None;
    }
    Some(&bytes[at..at + count])
}

/// The memory and the sync managers of a slave as the power comes on.
fn new_ram(alloc: Global) -> Result<(Vec<u8>, Vec<SyncManager>), AllocError>
    ensures memory { IfOk result (λ r. r.0.items ≡ zeros memory_length) }
    ensures managers { IfOk result (λ r. r.1.items ≡ no_manager ∷ no_manager ∷ no_manager ∷ no_manager ∷ []) }
{
    let managers = new_managers(alloc)?;
    let memory = vec![in alloc; 0; memory_len()]?;
    Ok((memory, managers))
}

/// The objects of a slave, and its SII, as the power comes on.
fn new_objects(
    alloc: Global,
    kind: SlaveType,
    identity: Identity,
) -> Result<(Dictionary, Port), AllocError>
    ensures objects { IfOk result (λ r. r.0 ≡ new_dictionary kind identity) }
    ensures image { IfOk result (λ r. r.1 ≡ idle_port (image_of kind identity)) }
{
    let image = SiiImage::of(alloc, &kind, identity)?;
    let dictionary = Dictionary::new(alloc, kind, identity)?;
    Ok((dictionary, Port::new(image)))
}

/// Four sync managers as the power comes on.
fn new_managers(alloc: Global) -> Result<Vec<SyncManager>, AllocError>
    ensures { IfOk result (λ v. v.items ≡ no_manager ∷ no_manager ∷ no_manager ∷ no_manager ∷ []) }
{
    let mut managers = Vec::new(alloc);
    for _ in 0..MANAGER_COUNT {
        managers.push(SyncManager::new(alloc)?)?;
    }
    Ok(managers)
}

/// The number of addresses, which contracts see under its name.
#[tactic(auto, unfolding(crate::specs::State::memory_length))]
fn memory_len() -> usize
    ensures value { result ≡ memory_length }
    ensures is { result ≡ ram_end }
{
    RAM_END
}
