//! The fixed form of a plan.
ghost use Rattle.std.specs.Prelude.{◌≡◌, ◌++◌, IfOk, OnOk, string_bytes};
ghost use Rattle.ec_text.specs.PlanText.{fmmu_line, lines_from, manager_line, part_line, plan_text, planned_part_line, record_line, slave_line, slave_lines, unit_text};

use crate::digits::write_counter;
use ec_device::SlaveType;
use ec_link::{ExpectedCounters, PartPlan, Plan, SlavePlan};
use ec_regs::{
    FmmuSettings, SyncManagerSettings, encode_fmmu, encode_manager, shown_fmmu, shown_manager,
};
use ec_table::Version;
use std::alloc::{AllocError, Global};
use std::fmt::Write as _;

/// The plan of a table of this version as a text. Each slave has a line with its part, and how many
/// output and input bits it has. Its sync managers that are set and its FMMUs that are active follow, by
/// number, with the bytes of the device's registers in hex. Behind all slaves, each part has a line with its first
/// logical byte, its bytes, and the working counters of its frame. Numbers are decimal. In version 2 a
/// part's line ends in its sync unit. `AllocError` if memory ran out.
pub fn plan_text(alloc: Global, version: Version, plan: &Plan) -> Result<String, AllocError>
    ensures { IfOk result (λ text. string_bytes text ≡ plan_text version plan.now) }
{
    let mut text = String::new(alloc);
    write_slaves(alloc, &mut text, plan.slaves())?;
    write_parts(&mut text, version, plan)?;
    Ok(text)
}

/// Adds the lines of the slaves.
#[tactic(auto, using(crate::proofs::Lines::line_steps))]
fn write_slaves(alloc: Global, text: &mut String, slaves: &[SlavePlan]) -> Result<(), AllocError>
    ensures { OnOk result
        (string_bytes text.new ≡ string_bytes text.old ++ lines_from slave_lines 0 slaves.now) }
{
    for (number, slave) in slaves.iter().enumerate() {
        write_slave(alloc, text, number, slave)?;
    }
    Ok(())
}

/// Adds the lines of a slave.
#[tactic(auto, using(crate::proofs::Lines::three_added))]
fn write_slave(
    alloc: Global,
    text: &mut String,
    number: usize,
    slave: &SlavePlan,
) -> Result<(), AllocError>
    ensures { OnOk result
        (string_bytes text.new ≡ string_bytes text.old ++ slave_lines number slave.now) }
{
    write_sizes(text, number, slave)?;
    let managers = slave.managers_by_number();
    write_managers(alloc, text, &slave.kind, managers.as_slice())?;
    write_fmmus(alloc, text, &slave.kind, slave.fmmus.as_slice())
}

/// Adds the line of a slave's part and sizes.
#[tactic(auto, unfolding(crate::specs::PlanText::slave_line))]
fn write_sizes(text: &mut String, number: usize, slave: &SlavePlan) -> Result<(), AllocError>
    ensures { OnOk result
        (string_bytes text.new ≡ string_bytes text.old ++ slave_line number slave.now) }
{
    let (part, outs, ins) = (slave.share.part, slave.bits.outs, slave.bits.ins);
    writeln!(text, "slave {number} part {part} out {outs} in {ins}")
}

/// Adds the lines of a slave's FMMUs.
#[tactic(auto, using(crate::proofs::Lines::line_steps))]
fn write_fmmus(
    alloc: Global,
    text: &mut String,
    kind: &SlaveType,
    fmmus: &[FmmuSettings],
) -> Result<(), AllocError>
    ensures { OnOk result
        (string_bytes text.new ≡ string_bytes text.old ++ lines_from (fmmu_line kind.now.hardware) 0 fmmus.now) }
{
    for (number, fmmu) in fmmus.iter().enumerate() {
        write_fmmu(alloc, text, kind, number, fmmu)?;
    }
    Ok(())
}

/// Adds the lines of a slave's sync managers.
#[tactic(auto, using(crate::proofs::Lines::line_steps))]
fn write_managers(
    alloc: Global,
    text: &mut String,
    kind: &SlaveType,
    managers: &[SyncManagerSettings],
) -> Result<(), AllocError>
    ensures { OnOk result
        (string_bytes text.new ≡ string_bytes text.old ++ lines_from (manager_line kind.now.hardware) 0 managers.now) }
{
    for (number, manager) in managers.iter().enumerate() {
        write_manager(alloc, text, kind, number, manager)?;
    }
    Ok(())
}

/// Adds the line of an FMMU, if it is active.
#[tactic(auto, using(crate::proofs::Lines::nothing_added))]
fn write_fmmu(
    alloc: Global,
    text: &mut String,
    kind: &SlaveType,
    number: usize,
    fmmu: &FmmuSettings,
) -> Result<(), AllocError>
    ensures { OnOk result
        (string_bytes text.new ≡ string_bytes text.old ++ fmmu_line kind.now.hardware number fmmu.now) }
{
    if fmmu.active {
        let bytes = encode_fmmu(&shown_fmmu(kind, *fmmu));
        write_record(alloc, text, "fmmu", number, &bytes)
    } else {
        Ok(())
    }
}

/// Adds the line of a sync manager, if it is set.
#[tactic(auto, using(crate::proofs::Lines::nothing_added))]
fn write_manager(
    alloc: Global,
    text: &mut String,
    kind: &SlaveType,
    number: usize,
    manager: &SyncManagerSettings,
) -> Result<(), AllocError>
    ensures { OnOk result
        (string_bytes text.new ≡ string_bytes text.old ++ manager_line kind.now.hardware number manager.now) }
{
    if manager.is_set() {
        let bytes = encode_manager(&shown_manager(kind, *manager));
        write_record(alloc, text, "sm", number, &bytes)
    } else {
        Ok(())
    }
}

/// Adds a line with the bytes of a register record.
fn write_record(
    alloc: Global,
    text: &mut String,
    name: &str,
    number: usize,
    bytes: &[u8],
) -> Result<(), AllocError>
    ensures { OnOk result
        (string_bytes text.new ≡ string_bytes text.old ++ record_line name.now number bytes.now) }
{
    let digits = hex::encode(alloc, bytes)?;
    writeln!(text, "{name} {number} {digits}")
}

/// Adds the lines of the parts.
#[tactic(auto, using(crate::proofs::Lines::line_steps))]
fn write_parts(text: &mut String, version: Version, plan: &Plan) -> Result<(), AllocError>
    ensures { OnOk result (string_bytes text.new ≡ string_bytes text.old
        ++ lines_from (planned_part_line version plan.now) 0 plan.now.parts) }
{
    for (number, part) in plan.parts().iter().enumerate() {
        write_part(text, version, number, part, plan.predicted(number))?;
    }
    Ok(())
}

/// Adds the line of a part.
fn write_part(
    text: &mut String,
    version: Version,
    number: usize,
    part: &PartPlan,
    predicted: ExpectedCounters,
) -> Result<(), AllocError>
    ensures { OnOk result (string_bytes text.new
        ≡ string_bytes text.old ++ part_line version number part.now predicted) }
{
    let (address, bytes) = (part.address, part.bytes);
    write!(
        text,
        "part {number} address {address} bytes {bytes} counter "
    )?;
    write_counter(text, part, predicted)?;
    write_unit(text, version, part.unit)?;
    text.push_str("\n")
}

/// Adds the sync unit of a part, if the table's version has units.
fn write_unit(text: &mut String, version: Version, unit: u8) -> Result<(), AllocError>
    ensures { OnOk result
        (string_bytes text.new ≡ string_bytes text.old ++ unit_text version unit) }
{
    match version {
        Version::One => Ok(()),
        Version::Two => write!(text, " unit {unit}"),
    }
}
