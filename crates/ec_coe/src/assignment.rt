//! Which PDOs of a direction are assigned.

ghost use Rattle.std.specs.Prelude.{◌≡◌, ◌≤◌, ◌<◌, ◌^◌, ◌-◌, length, slice_get, All, IfOk, MatchResult, Ok, Err};
ghost use Rattle.std.specs.Option.{option_copied};
ghost use Rattle.ec_device.specs.Types.{pdo_bits};
ghost use Rattle.ec_device.specs.Objects.{pdo_at, bits_at, bits_assigned};
ghost use Rattle.ec_coe.specs.Objects.{indices, all_assigned, assigned as assigned_indices, assignment_values};
ghost use Rattle.ec_coe.specs.Transfers.{distinct, takes_count as takes_count_of, takes_value as takes_value_of, with_value, assignment_written};

use crate::abort_code::AbortCode;
use crate::value::SdoValue;
use ec_device::{MAX_BITS, Pdo};
use std::alloc::{AllocError, Global};
use std::marker::Model;

/// The PDO assignment of one direction, object 0x1C12 or 0x1C13: a slot for each PDO of the type, and how many of the slots
/// count. It allocates all its memory in `new`.
#[derive(Debug, Drop)]
pub struct Assignment {
    slots: Vec<u16>,
    count: u8,
}

impl Model for Assignment {
    ghost use Rattle.std.specs.Prelude.{◌≤◌, length};
    ghost use Rattle.ec_coe.specs.Objects.{Assignment as Slots};

    ghost Value = { Slots };

    ghost view = { λ a. record { slots = a.slots.items; count = a.count } };

    ghost invariant = { λ a. a.count ≤ length a.slots.items };
}

/// The PDO with an index.
pub fn find_pdo(pdos: &[Pdo], index: u16) -> Option<&Pdo>
    ensures { option_copied result ≡ pdo_at pdos.now index }
{
    pdos.iter().find(|pdo| pdo.index == index)
}

impl Assignment {
    /// Every PDO of a direction, in order.
    ///
    /// # Errors
    ///
    /// `AllocError` if there is no memory.
    pub fn new(alloc: Global, pdos: &[Pdo]) -> Result<Assignment, AllocError>
        requires { length pdos.now < 256 }
        ensures { IfOk result (λ a. a ≡ all_assigned pdos.now) }
    {
        let slots: Vec<u16> = pdos.iter().map(|pdo| pdo.index).collect(alloc)?;
        Ok(Assignment {
            count: pdos.len() as u8,
            slots,
        })
    }

    /// Does nothing. Its contract says that no more slots of an assignment count than there are.
    pub(crate) fn is_sound(&self)
        ensures { self.now.count ≤ length self.now.slots }
    {
        let _ = &self.slots;
    }

    /// The indices of the PDOs that are assigned, in order.
    pub fn assigned(&self) -> &[u16]
        ensures { result.now ≡ assigned_indices self.now }
    {
        &self.slots[..self.count as usize]
    }

    /// How many bits the PDOs that are assigned have together, of these of the direction.
    pub(crate) fn bits(&self, pdos: &[Pdo]) -> usize
        requires { All (λ p. (length p.entries ≤ 64) × (pdo_bits p ≤ 4096)) pdos.now }
        ensures value { result ≡ bits_assigned pdos.now (assigned_indices self.now) }
        ensures limit { result < 2 ^ 20 }
    {
        sum_of_bits(pdos, &self.slots[..self.count as usize])
    }

    /// The value at a subindex of the object: at 0 how many slots count, at 1 and above the slots.
    pub(crate) fn value(&self, subindex: u8) -> Option<SdoValue>
        ensures { result ≡ slice_get (assignment_values self.now) subindex }
    {
        if subindex == 0 {
            return Some(SdoValue::byte(self.count));
        }
        let slot = self.slots.get(subindex as usize - 1)?;
        Some(SdoValue::word(*slot))
    }

    /// A download to the object, whose subindex is there.
    ///
    /// # Errors
    ///
    /// The first abort that holds; nothing changes then.
    #[tactic(auto, unfolding(crate::specs::Transfers::assignment_written))]
    pub(crate) fn write(
        &mut self,
        pdos: &[Pdo],
        in_preop: bool,
        subindex: u8,
        number: u32,
    ) -> Result<(), AbortCode>
        requires slots { length self.old.slots ≡ length pdos.now }
        requires few { length pdos.now < 256 }
        requires small { All (λ p. (length p.entries ≤ 64) × (pdo_bits p ≤ 4096)) pdos.now }
        requires there { subindex ≤ length self.old.slots }
        requires word { number < 2 ^ 16 }
        ensures outcome { MatchResult result
            (λ _. assignment_written in_preop pdos.now self.old subindex number ≡ Ok self.new)
            (λ code. (assignment_written in_preop pdos.now self.old subindex number ≡ Err code) × (self.new ≡ self.old)) }
        ensures slots { length self.new.slots ≡ length self.old.slots }
    {
        let is_open = in_preop && (subindex == 0 || self.count == 0);
        if !is_open {
            return Err(AbortCode::WrongState);
        }
        if !self.takes_value(pdos, subindex, number) {
            return Err(AbortCode::InvalidValue);
        }
        self.set_value(subindex, number as u16);
        Ok(())
    }

    /// Assigns every PDO of the direction, in order.
    pub(crate) fn reset(&mut self, pdos: &[Pdo])
        requires slots { length self.old.slots ≡ length pdos.now }
        requires few { length pdos.now < 256 }
        ensures { self.new ≡ all_assigned pdos.now }
    {
        assign_all(&mut self.slots, pdos);
        self.count = pdos.len() as u8;
    }

    /// Sets the count, or a slot.
    fn set_value(&mut self, subindex: u8, number: u16)
        requires count { subindex ≡ 0 → (number ≤ length self.old.slots) × (number < 256) }
        requires slot { subindex ≤ length self.old.slots }
        ensures after { self.new ≡ with_value self.old subindex number }
        ensures slots { length self.new.slots ≡ length self.old.slots }
    {
        if subindex == 0 {
            self.count = number as u8;
        } else {
            self.slots[subindex as usize - 1] = number;
        }
    }

    /// Whether a value may stand at a subindex.
    fn takes_value(&self, pdos: &[Pdo], subindex: u8, number: u32) -> bool
        requires slots { length self.now.slots ≡ length pdos.now }
        requires few { length pdos.now < 256 }
        requires small { All (λ p. (length p.entries ≤ 64) × (pdo_bits p ≤ 4096)) pdos.now }
        requires word { number < 2 ^ 16 }
        ensures { result ≡ takes_value_of pdos.now self.now subindex number }
    {
        if subindex == 0 {
            self.takes_count(pdos, number)
        } else {
            find_pdo(pdos, number as u16).is_some()
        }
    }

    /// Whether `count` slots may count: there are as many, no index stands twice in them, and their PDOs fit a direction.
    fn takes_count(&self, pdos: &[Pdo], count: u32) -> bool
        requires slots { length self.now.slots ≡ length pdos.now }
        requires few { length pdos.now < 256 }
        requires small { All (λ p. (length p.entries ≤ 64) × (pdo_bits p ≤ 4096)) pdos.now }
        ensures { result ≡ takes_count_of pdos.now self.now count }
    {
        let count = count as usize;
        if count > pdos.len() {
            return false;
        }
        let indices = &self.slots[..count];
        are_distinct(indices) && sum_of_bits(pdos, indices) <= MAX_BITS
    }
}

/// Whether no index stands twice.
fn are_distinct(indices: &[u16]) -> bool
    ensures { result ≡ distinct indices.now }
{
    for (i, index) in indices.iter().enumerate() {
        if indices[i + 1..].contains(index) {
            return false;
        }
    }
    true
}

/// How many bits the PDOs with these indices have together.
fn sum_of_bits(pdos: &[Pdo], indices: &[u16]) -> usize
    requires few { length indices.now < 256 }
    requires small { All (λ p. (length p.entries ≤ 64) × (pdo_bits p ≤ 4096)) pdos.now }
    ensures value { result ≡ bits_assigned pdos.now indices.now }
    ensures limit { result < 2 ^ 20 }
{
    let mut total = 0;
    for index in indices {
        total += bits_of(pdos, *index);
    }
    total
}

/// How many bits the PDO with an index has, 0 if there is none.
fn bits_of(pdos: &[Pdo], index: u16) -> usize
    requires { All (λ p. (length p.entries ≤ 64) × (pdo_bits p ≤ 4096)) pdos.now }
    ensures value { result ≡ bits_at pdos.now index }
    ensures small { result ≤ 4096 }
{
    match find_pdo(pdos, index) {
        Some(pdo) => pdo.bits(),
        None => 0,
    }
}

/// Each slot gets the index of its PDO.
fn assign_all(slots: &mut [u16], pdos: &[Pdo])
    requires { length slots.old ≡ length pdos.now }
    ensures { slots.new ≡ indices pdos.now }
{
    for k in 0..pdos.len() {
        slots[k] = pdos[k].index;
    }
}
