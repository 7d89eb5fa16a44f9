//! Where the process data of a slave lie, and what else a type for hardware says.
ghost use Rattle.std.specs.Prelude.{◌≡◌, IsTrue, is_some};
ghost use Rattle.ec_device.specs.Hardware.{IsHardware};
ghost use Rattle.ec_scan.specs.Showing.{usable};
ghost use Rattle.ec_found.specs.Founds.{areas_of, areas_shown, hardware_with, in_used, is_fixed, is_hardware, manager_at, manager_of, out_used, process_manager, unused, usual_areas};

use crate::reading::{GENERAL, MANAGERS, UsedManager, byte_in, category_in, manager_for, words_in};
use ec_device::{Hardware, LAST_MANAGER, MAX_FMMUS, Mailbox, PINS, PINS_BYTES, ProcessManager};
use ec_scan::Shown;
use ec_table::Direction;

/// What the SII's sync managers are used for.
pub(crate) const OUTPUTS: u8 = 3;

pub(crate) const INPUTS: u8 = 4;

/// The bit of the CoE details that says that the PDO assignment can be written: bit 2 of byte 5 of the general category.
const CAN_ASSIGN: u8 = 1 << 2;

/// Where the process data of a slave begin, as the device has it, and its hardware.
#[derive(Clone, Copy, Debug, PartialEq, Eq)]
pub(crate) struct Areas {
    pub out_start: u16,
    pub in_start: u16,
    pub hardware: Hardware,
}

impl Areas {
    /// Those of a slave: as it shows them, if a table can say that, else by the usual managers.
    #[tactic(auto, using(crate::proofs::HardwareLimits::usual_limits, crate::proofs::HardwareLimits::fixed_has_mailbox))]
    pub(crate) fn of(shown: &Shown) -> Areas
        ensures value { result ≡ areas_of shown.now }
        ensures limits { IsHardware (usable shown.now.mailbox) result.hardware }
    {
        let mailbox = shown.mailbox.usable();
        let areas = Areas::shown(shown);
        if is_hardware(mailbox, &areas.hardware) {
            areas
        } else {
            areas.by_usual()
        }
    }

    /// Whether a table can say where a slave's process data lie.
    #[tactic(auto, using(crate::proofs::HardwareLimits::fixed_has_mailbox))]
    pub(crate) fn are_said(shown: &Shown) -> bool
        ensures { result ≡ is_hardware (usable shown.now.mailbox) (areas_shown shown.now).hardware }
    {
        is_hardware(shown.mailbox.usable(), &Areas::shown(shown).hardware)
    }

    /// As a slave shows them.
    fn shown(shown: &Shown) -> Areas
        ensures { result ≡ areas_shown shown.now }
    {
        let outs = manager_of(Direction::Out, shown);
        let ins = manager_of(Direction::In, shown);
        Areas {
            out_start: outs.start,
            in_start: ins.start,
            hardware: hardware_of(outs, ins, shown.has_firmware, is_fixed(shown)),
        }
    }

    /// Where these are, by the usual managers: of a slave whose own a table can't say.
    fn by_usual(self) -> Areas
        ensures { result ≡ usual_areas self }
    {
        let outs = manager_at(self.out_start, 2, 0x24);
        let ins = manager_at(self.in_start, 3, 0x20);
        Areas {
            hardware: hardware_of(outs, ins, true, self.hardware.is_fixed),
            ..self
        }
    }
}

/// The sync manager of a direction, as a slave shows it.
pub(crate) fn manager_of(direction: Direction, shown: &Shown) -> UsedManager
    ensures { result ≡ manager_of direction shown.now }
{
    let words = words_in(shown.categories.as_slice(), MANAGERS);
    let (outputs, inputs) = (manager_for(words, OUTPUTS), manager_for(words, INPUTS));
    match direction {
        Direction::Out => out_used(outputs, inputs),
        Direction::In => in_used(outputs, inputs),
    }
}

/// The hardware of a slave with these managers.
fn hardware_of(outs: UsedManager, ins: UsedManager, has_firmware: bool, is_fixed: bool) -> Hardware
    ensures { result ≡ hardware_with outs ins has_firmware is_fixed }
{
    Hardware {
        out_manager: process_manager(outs),
        in_manager: process_manager(ins),
        has_pins: (PINS..PINS + PINS_BYTES).contains(&outs.start),
        has_firmware,
        is_fixed,
        slow: 0,
        has_emergency: false,
        fmmus: MAX_FMMUS,
        any_revision: false,
    }
}

fn process_manager(used: UsedManager) -> ProcessManager
    ensures { result ≡ process_manager used }
{
    ProcessManager {
        number: used.number,
        control: used.control,
    }
}

/// The manager of an area.
fn manager_at(start: u16, number: u8, control: u8) -> UsedManager
    ensures { result ≡ manager_at start number control }
{
    UsedManager {
        number,
        start,
        long: 0,
        control,
    }
}

/// The manager of a direction that has no process data.
fn unused(number: u8, control: u8) -> UsedManager
    ensures { result ≡ unused number control }
{
    manager_at(0, number, control)
}

/// The manager of the outputs; if there is none, one that the inputs leave.
fn out_used(outputs: Option<UsedManager>, inputs: Option<UsedManager>) -> UsedManager
    ensures { result ≡ out_used outputs inputs }
{
    match (outputs, inputs) {
        (Some(used), _) => used,
        (None, Some(used)) if used.number == 2 => unused(3, 0x24),
        (None, _) => unused(2, 0x24),
    }
}

/// The manager of the inputs; if there is none, one that the outputs leave.
fn in_used(outputs: Option<UsedManager>, inputs: Option<UsedManager>) -> UsedManager
    ensures { result ≡ in_used outputs inputs }
{
    match (inputs, outputs) {
        (Some(used), _) => used,
        (None, Some(used)) if used.number == 3 => unused(2, 0x20),
        (None, _) => unused(3, 0x20),
    }
}

/// Whether a type can say a device with such a mailbox: the two managers are different ones of the first four and have the modes of
/// their directions. Beside a mailbox they leave it the first two, and there is firmware.
#[tactic(auto, using(crate::proofs::HardwareLimits::limits_of))]
fn is_hardware(mailbox: Option<Mailbox>, hardware: &Hardware) -> bool
    requires fmmus { hardware.now.fmmus ≡ 4 }
    requires slow { hardware.now.slow ≡ 0 }
    requires fixed { IsTrue hardware.now.is_fixed → IsTrue (is_some mailbox) }
    ensures value { result ≡ is_hardware mailbox hardware.now }
    ensures limits { IsTrue result → IsHardware mailbox hardware.now }
{
    let Hardware {
        out_manager: outs,
        in_manager: ins,
        ..
    } = *hardware;
    let are_known = outs.number <= LAST_MANAGER && ins.number <= LAST_MANAGER;
    let have_modes = outs.control % 16 == 4 && ins.control % 16 == 0;
    let leave_room = outs.number >= 2 && ins.number >= 2 && hardware.has_firmware;
    let are_apart = outs.number != ins.number;
    are_known && are_apart && have_modes && (mailbox.is_none() || leave_room)
}

/// Whether a slave that takes CoE says that its PDO assignment can't be written.
#[tactic(auto, using(crate::proofs::Flags::assign_bit))]
pub(crate) fn is_fixed(shown: &Shown) -> bool
    ensures { result ≡ is_fixed shown.now }
{
    if shown.mailbox.usable().is_none() {
        return false;
    }
    match category_in(shown.categories.as_slice(), GENERAL) {
        None => false,
        Some(words) => byte_in(words, 5) & CAN_ASSIGN == 0,
    }
}
