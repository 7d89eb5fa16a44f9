//! Which of its PDOs a slave exchanges, and which of these a table can assign together.
ghost use Rattle.std.specs.Prelude.{◌≡◌, ◌≤◌, ◌==◌, ◌&&◌, ◌∷◌, ◌++◌, [], false, filter, find, not, IfOk, OnOk};
ghost use Rattle.std.specs.List.{list_any};
ghost use Rattle.std.specs.Option.{option_map};
ghost use Rattle.ec_device.specs.Objects.{assigned_entries, entries_at};
ghost use Rattle.ec_device.specs.Types.{ArePdos, first_input_index};
ghost use Rattle.ec_link.specs.Entries.{is_named, names_twice};
ghost use Rattle.ec_found.specs.Founds.{assigned_of, exchanged_of, front, has, has_index, indices, left_out, listed, together};

use crate::mapped::{has_index, kept, push_copy, takes};
use ec_coe::find_pdo;
use ec_device::{Entry, Pdo};
use ec_listed::Listed;
use std::alloc::{AllocError, Global};

/// The PDOs that a type lists, of all that a slave has: those that a table takes, if it says which of them a slave exchanges, else those in
/// front of the first that is left out.
pub(crate) fn listed(
    alloc: Global,
    first: u16,
    is_assignable: bool,
    all: &[Pdo],
) -> Result<Listed<Pdo>, AllocError>
    requires { first ≤ first_input_index }
    ensures value { IfOk result (λ ps. ps ≡ listed is_assignable first all.now) }
    ensures limits { IfOk result (ArePdos first) }
{
    if is_assignable {
        kept(alloc, first, all)
    } else {
        front(alloc, first, all)
    }
}

/// The PDOs in front of the first that a table doesn't take, or can't assign beside those before it.
#[tactic(auto, using(crate::proofs::KeptPdos::limits_push, crate::proofs::Together::front_taken, crate::proofs::Together::front_refused, crate::proofs::Together::front_repeated))]
fn front(alloc: Global, first: u16, all: &[Pdo]) -> Result<Listed<Pdo>, AllocError>
    requires { first ≤ first_input_index }
    ensures value { IfOk result (λ ps. ps ≡ front first all.now) }
    ensures limits { IfOk result (ArePdos first) }
{
    let mut found = Listed::new(alloc);
    let mut indices = Listed::new(alloc);
    for pdo in all {
        if !takes(first, found.as_slice(), pdo) {
            return Ok(found);
        }
        if is_repeated(alloc, all, indices.as_slice(), pdo.index)? {
            return Ok(found);
        }
        push_copy(alloc, &mut found, pdo)?;
        indices.push(pdo.index)?;
    }
    Ok(found)
}

/// The indices of the PDOs that a table assigns to a slave, of those that its type has. `exchanged` are those that the slave exchanges by
/// CoE, if it says so.
pub(crate) fn assigned_of(
    alloc: Global,
    first: u16,
    pdos: &[Pdo],
    exchanged: Option<&[Pdo]>,
) -> Result<Listed<u16>, AllocError>
    requires { first ≤ first_input_index }
    ensures { IfOk result (λ is. is ≡ assigned_of first pdos.now (option_map (λ qs. qs.now) exchanged.entry)) }
{
    let all = exchanged_of(alloc, first, pdos, exchanged)?;
    together(alloc, pdos, all.as_slice())
}

/// The index of the first PDO that a slave exchanges, and that a table can't assign beside those before it.
pub(crate) fn left_out(
    alloc: Global,
    first: u16,
    pdos: &[Pdo],
    exchanged: Option<&[Pdo]>,
) -> Result<Option<u16>, AllocError>
    requires { first ≤ first_input_index }
    ensures { IfOk result (λ index. index ≡ left_out first pdos.now (option_map (λ qs. qs.now) exchanged.entry)) }
{
    let all = exchanged_of(alloc, first, pdos, exchanged)?;
    let found = together(alloc, pdos, all.as_slice())?;
    Ok(first_missing(found.as_slice(), all.as_slice()))
}

/// The first of these indices that isn't among those found.
fn first_missing(found: &[u16], indices: &[u16]) -> Option<u16>
    ensures { result ≡ find (λ i. not (has found.now i)) indices.now }
{
    for index in indices {
        if !has(found, *index) {
            return Some(*index);
        }
    }
    None
}

fn has(indices: &[u16], index: u16) -> bool
    ensures { result ≡ has indices.now index }
{
    indices.contains(&index)
}

/// The indices of the PDOs that a slave exchanges, of those that its type has: all, unless CoE says which.
fn exchanged_of(
    alloc: Global,
    first: u16,
    pdos: &[Pdo],
    exchanged: Option<&[Pdo]>,
) -> Result<Listed<u16>, AllocError>
    requires { first ≤ first_input_index }
    ensures { IfOk result (λ is. is ≡ exchanged_of first pdos.now (option_map (λ qs. qs.now) exchanged.entry)) }
{
    match exchanged {
        None => all_indices(alloc, pdos),
        Some(said) => known_indices(alloc, pdos, kept(alloc, first, said)?.as_slice()),
    }
}

/// The indices of PDOs.
fn all_indices(alloc: Global, pdos: &[Pdo]) -> Result<Listed<u16>, AllocError>
    ensures { IfOk result (λ is. is ≡ indices pdos.now) }
{
    let mut found = Listed::new(alloc);
    for pdo in pdos {
        found.push(pdo.index)?;
    }
    Ok(found)
}

/// The indices of PDOs, as far as `known` has them.
fn known_indices(alloc: Global, known: &[Pdo], pdos: &[Pdo]) -> Result<Listed<u16>, AllocError>
    ensures { IfOk result (λ is. is ≡ filter (has_index known.now) (indices pdos.now)) }
{
    let mut found = Listed::new(alloc);
    for pdo in pdos {
        if has_index(known, pdo.index) {
            found.push(pdo.index)?;
        }
    }
    Ok(found)
}

/// Those of PDOs, by their indices, that a table can assign together: one is left out if it has an entry, no gap, that one before it has, or
/// one twice.
#[tactic(auto, using(crate::proofs::Together::together_taken, crate::proofs::Together::together_left))]
fn together(alloc: Global, pdos: &[Pdo], indices: &[u16]) -> Result<Listed<u16>, AllocError>
    ensures { IfOk result (λ is. is ≡ together pdos.now indices.now) }
{
    let mut found = Listed::new(alloc);
    for index in indices {
        if !is_repeated(alloc, pdos, found.as_slice(), *index)? {
            found.push(*index)?;
        }
    }
    Ok(found)
}

/// Whether PDOs have an entry twice, no gap, with one more behind them that aren't so without it.
fn is_repeated(alloc: Global, pdos: &[Pdo], before: &[u16], index: u16) -> Result<bool, AllocError>
    requires { names_twice (assigned_entries pdos.now before.now) ≡ false }
    ensures { IfOk result (λ twice. twice ≡ names_twice (assigned_entries pdos.now (before.now ++ index ∷ []))) }
{
    let entries = entries_of(alloc, pdos, before)?;
    Ok(repeat(entries.as_slice(), entries_at(pdos, index)))
}

/// The entries of the PDOs with these indices, one after another.
fn entries_of(alloc: Global, pdos: &[Pdo], indices: &[u16]) -> Result<Listed<Entry>, AllocError>
    ensures { IfOk result (λ es. es ≡ assigned_entries pdos.now indices.now) }
{
    let mut found = Listed::new(alloc);
    for index in indices {
        push_entries(&mut found, entries_at(pdos, *index))?;
    }
    Ok(found)
}

/// The entries of the PDO with an index, none if there is no such PDO.
fn entries_at(pdos: &[Pdo], index: u16) -> &[Entry]
    ensures { result.now ≡ entries_at pdos.now index }
{
    match find_pdo(pdos, index) {
        Some(pdo) => pdo.entries.as_slice(),
        None => &[],
    }
}

/// Puts entries behind others.
fn push_entries(found: &mut Listed<Entry>, entries: &[Entry]) -> Result<(), AllocError>
    ensures { OnOk result (found.new ≡ found.old ++ entries.now) }
{
    for entry in entries {
        found.push(*entry)?;
    }
    Ok(())
}

/// Whether an entry, no gap, of which each stands once in those before, stands there and here, or here twice.
#[tactic(auto, using(crate::proofs::Together::twice_joined))]
fn repeat(before: &[Entry], entries: &[Entry]) -> bool
    requires { names_twice before.now ≡ false }
    ensures { result ≡ names_twice (before.now ++ entries.now) }
{
    share_name(before, entries) || is_some_twice(entries)
}

/// Whether an entry, no gap, has a name that one of the others has.
fn share_name(entries: &[Entry], others: &[Entry]) -> bool
    ensures { result ≡ list_any (λ e. not (e.index == 0) && list_any (is_named e.index e.subindex) others.now) entries.now }
{
    for entry in entries {
        if entry.index != 0 && has_name(others, entry.index, entry.subindex) {
            return true;
        }
    }
    false
}

/// Whether an entry, no gap, stands twice.
fn is_some_twice(entries: &[Entry]) -> bool
    ensures { result ≡ names_twice entries.now }
{
    for (place, entry) in entries.iter().enumerate() {
        if entry.index != 0 && has_name(&entries[place + 1..], entry.index, entry.subindex) {
            return true;
        }
    }
    false
}

/// Whether one of the entries has a name.
fn has_name(entries: &[Entry], index: u16, subindex: u8) -> bool
    ensures { result ≡ list_any (is_named index subindex) entries.now }
{
    for entry in entries {
        if entry.index == index && entry.subindex == subindex {
            return true;
        }
    }
    false
}
