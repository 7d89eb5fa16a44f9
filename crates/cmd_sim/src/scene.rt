//! Words for people about a world: its slaves, variables and slots by name, and those that don't exist.
use ec_asking::AlStatus;
use ec_console::{Misfit, Missed};
use ec_diagnostic::Printable;
use ec_script::Expectation;
use ec_simulation::{value_seen, view_of};
use ec_table::{Direction, Table};
use ec_world::World;
use std::fmt;

/// The register of the AL status (ETG.1000.4), whose low four bits are the state.
const AL_STATUS: u16 = 0x0130;

/// The register of the AL status code (ETG.1000.4).
const AL_STATUS_CODE: u16 = 0x0134;

/// The byte of sync manager 0 that the slave's side sets (ETG.1000.4). Its bit 0 deactivates the manager.
const FIRST_LOCK: u16 = 0x0807;
/// How many bytes further that of the next manager stands.
const MANAGER_SIZE: u16 = 8;
/// The manager of the outputs, where no slave says another.
const USUAL_MANAGER: u8 = 2;

/// A world, and the table that has its names.
#[derive(Clone, Copy)]
pub struct Scene<'w, 'p> {
    pub table: &'w Table,
    pub world: &'w World<'p>,
}

/// The state of a slave's firmware.
#[derive(Clone, Copy)]
pub struct Firmware {
    /// The name of the state.
    pub state: &'static str,
    /// Whether applications exchange process data in it.
    pub is_running: bool,
}

impl Firmware {
    /// The state of the firmware of a slave. For a slave that doesn't exist it is INIT.
    pub fn of(world: &World<'_>, slave: usize) -> Firmware {
        let (state, is_running) = match register(world, slave, AL_STATUS) & 0x0F {
            2 => ("PREOP", false),
            4 => ("SAFEOP", true),
            8 => ("OP", true),
            _ => ("INIT", false),
        };
        Firmware { state, is_running }
    }
}

impl Scene<'_, '_> {
    /// Whether the outputs of a slave are locked. A fault locks them, and only INIT ends that.
    pub fn has_locked_outputs(&self, slave: usize) -> bool {
        let manager = match self.world.plan().slaves().get(slave) {
            Some(settings) => settings.kind.out_manager().number,
            None => USUAL_MANAGER,
        };
        let lock = FIRST_LOCK + MANAGER_SIZE * u16::from(manager);
        register(self.world, slave, lock) & 1 == 1
    }

    /// Whether the table has a slave of this number.
    pub fn has_slave(&self, slave: usize) -> bool {
        slave < self.table.slaves().len()
    }

    /// The name of a slave; empty if there is no such slave.
    pub fn slave_name(&self, slave: usize) -> Printable<'_> {
        match self.table.slaves().get(slave) {
            Some(row) => Printable(row.name.as_str()),
            None => Printable(""),
        }
    }

    /// Writes that a slave doesn't exist.
    pub fn write_no_slave<W: fmt::Write>(
        &self,
        f: &mut fmt::Formatter<W>,
        slave: usize,
    ) -> fmt::Result {
        match self.table.slaves().len() {
            0 => write!(f, "there is no slave {slave}: the table has none"),
            1 => write!(f, "there is no slave {slave}: the table has one, slave 0"),
            count => {
                let last = count.saturating_sub(1);
                write!(
                    f,
                    "there is no slave {slave}: the table has slaves 0 to {last}"
                )
            }
        }
    }

    /// Writes that a slot has no frame, or doesn't exist.
    pub fn write_no_frame<W: fmt::Write>(
        &self,
        f: &mut fmt::Formatter<W>,
        slot: usize,
    ) -> fmt::Result {
        if slot < self.world.slots() {
            return write!(f, "slot {slot} is empty: no frame is on its way there");
        }
        let last = self.world.slots().saturating_sub(1);
        write!(
            f,
            "there is no slot {slot}: frames are on their way in slots 0 to {last}"
        )
    }

    /// Writes why slaves publish no value of a variable.
    pub fn write_unshown<W: fmt::Write>(
        &self,
        f: &mut fmt::Formatter<W>,
        variable: usize,
    ) -> fmt::Result {
        let Some(row) = self.table.variables().get(variable) else {
            return write!(f, "the table has no variable {variable}");
        };
        let name = Printable(row.name.as_str());
        match row.direction {
            Direction::In => write!(
                f,
                "`{name}` is an input, which slaves don't publish as outputs"
            ),
            Direction::Out => write!(
                f,
                "`{name}` has bits that no slave publishes: its outputs aren't set up"
            ),
        }
    }

    /// Writes why a line that writes variables of direction `wanted` doesn't set a variable.
    pub fn write_unset<W: fmt::Write>(
        &self,
        f: &mut fmt::Formatter<W>,
        variable: usize,
        wanted: Direction,
    ) -> fmt::Result {
        let table = self.table;
        let Some(row) = table.variables().get(variable) else {
            return f.write(Misfit { table, variable });
        };
        let name = Printable(row.name.as_str());
        match (row.direction, wanted) {
            (Direction::In, Direction::Out) => {
                write!(
                    f,
                    "`{name}` comes from slaves: `in {name} VALUE` writes it there"
                )
            }
            (Direction::Out, Direction::In) => {
                write!(f, "`{name}` goes to slaves: `set {name} VALUE` sets it")
            }
            _ => f.write(Misfit { table, variable }),
        }
    }
}

impl Scene<'_, '_> {
    /// Writes what was and what was expected.
    pub fn write_missed<W: fmt::Write>(
        &self,
        f: &mut fmt::Formatter<W>,
        expected: Expectation,
    ) -> fmt::Result {
        let view = view_of(self.world);
        let value = match expected {
            Expectation::Is(variable, _)
            | Expectation::Holds(variable, _)
            | Expectation::Never(variable) => value_seen(self.world, variable),
            _ => None,
        };
        let status = match expected {
            Expectation::State(slave, _, _) => Some(self.status_of(slave)),
            _ => None,
        };
        f.write(Missed {
            table: self.table,
            view: &view,
            expected,
            value,
            status,
        })
    }

    /// The AL status of a slave and its code, as its registers have them.
    fn status_of(&self, slave: usize) -> AlStatus {
        let word = |address| {
            let low = register(self.world, slave, address);
            let high = register(self.world, slave, address + 1);
            u16::from_le_bytes([low, high])
        };
        AlStatus {
            word: word(AL_STATUS),
            code: word(AL_STATUS_CODE),
        }
    }
}

/// A byte of the registers of a slave; 0 if there is none.
fn register(world: &World<'_>, slave: usize, address: u16) -> u8 {
    if slave < world.slaves() {
        world.slave(slave).byte(address).unwrap_or(0)
    } else {
        0
    }
}
