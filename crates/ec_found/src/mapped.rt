//! The PDOs of a direction: those of the SII, and those that CoE has otherwise or besides.
ghost use Rattle.std.specs.Prelude.{◌≡◌, ◌≤◌, ◌++◌, ◌∷◌, [], IfOk, OnOk};
ghost use Rattle.std.specs.Option.{option_map};
ghost use Rattle.ec_device.specs.Types.{ArePdos, first_input_index};
ghost use Rattle.ec_found.specs.Founds.{exchanged_first, has_index, is_pdo, joined, kept, merged, others, takes};

use ec_coe::find_pdo;
use ec_device::{MAX_PDOS, Pdo, copied_pdos};
use ec_listed::Listed;
use std::alloc::{AllocError, Global};

/// The PDOs that a slave has: where CoE has another mapping than the SII, it decides, and what it has besides stands behind. If they
/// are more than a table takes, those that are exchanged come first. `exchanged` are those that CoE says are exchanged, if it says so;
/// a slave whose assignment is fixed exchanges no others.
pub(crate) fn merged(
    alloc: Global,
    is_fixed: bool,
    shown: &[Pdo],
    exchanged: Option<&[Pdo]>,
) -> Result<Listed<Pdo>, AllocError>
    ensures { IfOk result (λ ps. ps ≡ merged is_fixed shown.now (option_map (λ qs. qs.now) exchanged.entry)) }
{
    match exchanged {
        None => copied_pdos(alloc, shown),
        Some(said) if is_fixed => copied_pdos(alloc, said),
        Some(said) => {
            let found = joined(alloc, shown, said)?;
            if found.len() <= MAX_PDOS {
                Ok(found)
            } else {
                exchanged_first(alloc, shown, said)
            }
        }
    }
}

/// All PDOs in the order of the SII, those that it doesn't have behind them.
fn joined(alloc: Global, shown: &[Pdo], said: &[Pdo]) -> Result<Listed<Pdo>, AllocError>
    ensures { IfOk result (λ ps. ps ≡ joined shown.now said.now) }
{
    let mut found = Listed::new(alloc);
    for pdo in shown {
        push_copy(alloc, &mut found, find_pdo(said, pdo.index).unwrap_or(pdo))?;
    }
    push_others(alloc, &mut found, said, shown)?;
    Ok(found)
}

/// All PDOs, those that CoE has in front.
fn exchanged_first(alloc: Global, shown: &[Pdo], said: &[Pdo]) -> Result<Listed<Pdo>, AllocError>
    ensures { IfOk result (λ ps. ps ≡ exchanged_first shown.now said.now) }
{
    let mut found = Listed::new(alloc);
    push_others(alloc, &mut found, said, &[])?;
    push_others(alloc, &mut found, shown, said)?;
    Ok(found)
}

/// Puts copies of PDOs behind others, but for those whose index `known` has, and for empty slots.
fn push_others(
    alloc: Global,
    found: &mut Listed<Pdo>,
    pdos: &[Pdo],
    known: &[Pdo],
) -> Result<(), AllocError>
    ensures { OnOk result (found.new ≡ found.old ++ others pdos.now known.now) }
{
    for pdo in pdos {
        if pdo.index != 0 && !has_index(known, pdo.index) {
            push_copy(alloc, found, pdo)?;
        }
    }
    Ok(())
}

/// The PDOs that a table can have, of those that are there: the first 16 that are within the limits, with an index each.
#[tactic(auto, using(crate::proofs::KeptPdos::limits_push, crate::proofs::KeptPdos::kept_taken, crate::proofs::KeptPdos::kept_left))]
pub(crate) fn kept(alloc: Global, first: u16, pdos: &[Pdo]) -> Result<Listed<Pdo>, AllocError>
    requires { first ≤ first_input_index }
    ensures value { IfOk result (λ ps. ps ≡ kept first pdos.now) }
    ensures limits { IfOk result (ArePdos first) }
{
    let mut found = Listed::new(alloc);
    for pdo in pdos {
        if takes(first, found.as_slice(), pdo) {
            push_copy(alloc, &mut found, pdo)?;
        }
    }
    Ok(found)
}

/// Whether a table takes a PDO behind those found.
pub(crate) fn takes(first: u16, found: &[Pdo], pdo: &Pdo) -> bool
    requires { first ≤ first_input_index }
    ensures { result ≡ takes first found.now pdo.now }
{
    found.len() < MAX_PDOS && is_pdo(first, pdo) && !has_index(found, pdo.index)
}

/// Whether a PDO is within the limits of a table, in the direction whose indices begin at `first`.
fn is_pdo(first: u16, pdo: &Pdo) -> bool
    requires { first ≤ first_input_index }
    ensures { result ≡ is_pdo first pdo.now }
{
    pdo.is_within_limits(first)
}

/// Whether a PDO has an index.
pub(crate) fn has_index(pdos: &[Pdo], index: u16) -> bool
    ensures { result ≡ has_index pdos.now index }
{
    find_pdo(pdos, index).is_some()
}

/// Puts a copy of a PDO behind others.
pub(crate) fn push_copy(alloc: Global, found: &mut Listed<Pdo>, pdo: &Pdo) -> Result<(), AllocError>
    ensures { OnOk result (found.new ≡ found.old ++ pdo.now ∷ []) }
{
    let entries = Listed::copied(alloc, pdo.entries.as_slice())?;
    found.push(Pdo {
        index: pdo.index,
        entries,
    })?;
    Ok(())
}
