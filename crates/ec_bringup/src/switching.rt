//! Makes the slaves of a table, just switched on.

ghost use Rattle.std.specs.Prelude.{◌≡◌, None, IfOk, length};
ghost use Rattle.ec_link.specs.Faults.{compile_fault};
ghost use Rattle.ec_link.specs.Plan.{plan_of};
ghost use Rattle.ec_bringup.specs.SwitchedOn.{AreIdentities, AreSlavesOf, switched_on};

use ec_device::Identity;
use ec_link::{Machine, Plan, SlavePlan};
use ec_ring::Ring;
use ec_slave::Slave;
use ec_table::Table;
use std::alloc::{AllocError, Global};

/// The identities of the slaves of a table, in the order of the table: each has its type's device and its own serial
/// number.
///
/// # Errors
///
/// `AllocError` if there is no memory.
pub fn identities_of(alloc: Global, table: &Table) -> Result<Vec<Identity>, AllocError>
    ensures { IfOk result (λ v. AreIdentities table.now v.items) }
{
    let mut identities = Vec::new(alloc);
    for slave in 0..table.slaves().len() {
        identities.push(table.identity_of(slave))?;
    }
    Ok(identities)
}

/// A ring of the slaves of a plan, in its order, just switched on. Each is of its type, with these identities.
///
/// # Errors
///
/// `AllocError` if there is no memory.
pub fn switched_on(
    alloc: Global,
    slaves: &[SlavePlan],
    identities: &[Identity],
) -> Result<Ring, AllocError>
    requires { length identities.now ≡ length slaves.now }
    ensures { IfOk result (λ ring. ring ≡ switched_on slaves.now identities.now) }
{
    let mut all = Vec::new(alloc);
    for (place, settings) in slaves.iter().enumerate() {
        let kind = settings.kind.copied(alloc)?;
        all.push(Slave::new(alloc, kind, identities[place])?)?;
    }
    Ok(Ring::new(all))
}

/// A ring of the slaves of a table, just switched on, with the identities that the table states. `plan` is the plan
/// that `compile` makes of the table.
///
/// # Errors
///
/// `AllocError` if there is no memory.
pub fn slaves_of(alloc: Global, table: &Table, plan: &Plan) -> Result<Ring, AllocError>
    requires accepted { compile_fault table.now ≡ None }
    requires plan { plan.now ≡ plan_of table.now }
    ensures { IfOk result (AreSlavesOf table.now) }
{
    table.is_sound();
    let identities = identities_of(alloc, table)?;
    switched_on(alloc, plan.slaves(), identities.as_slice())
}

/// A ring of the slaves of a machine, just switched on, with the identities that its table states.
///
/// # Errors
///
/// `AllocError` if there is no memory.
pub fn slaves_of_machine(alloc: Global, machine: &Machine) -> Result<Ring, AllocError>
    ensures { IfOk result (AreSlavesOf machine.now) }
{
    slaves_of(alloc, machine.table(), machine.plan())
}
