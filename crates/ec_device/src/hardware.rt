//! What a type says of real devices: the sync managers of their process data, and what they lack.
ghost use Rattle.std.specs.Prelude.{◌≡◌, ◌<◌, ◌≤◌, ◌+◌, Some};
ghost use Rattle.ec_device.specs.Hardware.{usual_outputs, usual_inputs, is_taken, free_from, number_at, place_at, other_name, swapped};

/// Where the register of the pins begins: its first four bytes are the digital outputs of a device without a
/// processor ("Digital I/O output data" of the controllers).
pub const PINS: u16 = 0x0F00;
/// Where the outputs that a device has there lie inside its slave: in the last 16 bytes of the RAM.
pub const PINS_INSIDE: u16 = 0x2FF0;
/// How many bytes change places between the two.
pub const PINS_SIZE: u16 = 16;
/// How many bytes from `PINS` on are outputs.
pub const PINS_BYTES: u16 = 4;
/// The fewest FMMUs of a device: one for each direction.
pub const MIN_FMMUS: u8 = 2;
/// The most FMMUs that a simulated slave has.
pub const MAX_FMMUS: u8 = 4;
/// How many firmware steps later than another a simulated slave may decide a request.
pub const MAX_SLOW: u8 = 100;
/// The highest number of a sync manager.
pub const LAST_MANAGER: u8 = 3;

/// The place of the outputs' manager among the four of a slave and of a plan.
pub const OUTPUTS_PLACE: usize = 2;
/// The place of the inputs' manager.
pub const INPUTS_PLACE: usize = 3;

/// The sync manager of one direction of the process data (ETG.1000.4, "Sync manager").
#[derive(Clone, Copy, Debug, PartialEq, Eq)]
pub struct ProcessManager {
    /// Its number, 0 to 3.
    pub number: u8,
    /// Its control byte: mode and direction in bits 0 to 3, and above them what the device wants besides, such
    /// as its watchdog in bit 6.
    pub control: u8,
}

/// What a type says of real devices, and of simulated slaves that behave like them. A type of a table without
/// the key `hardware` has no such part.
///
/// Inside a slave and a plan the four sync managers stand in the order of their roles, whatever their numbers:
/// place 0 is the mailbox that the master writes, 1 the mailbox that it reads, 2 the outputs, 3 the inputs. Only
/// the registers go by numbers, and by the addresses that the device has.
#[derive(Clone, Copy, Debug, PartialEq, Eq)]
pub struct Hardware {
    /// The manager that holds the outputs.
    pub out_manager: ProcessManager,
    /// The manager that holds the inputs.
    pub in_manager: ProcessManager,
    /// Whether the outputs begin in the register of the pins, at 0x0F00 to 0x0F03.
    pub has_pins: bool,
    /// Whether the device has firmware; the AL status of one without is a copy of its AL control.
    pub has_firmware: bool,
    /// Whether its assignment of PDOs can't be written: all PDOs of the type, in order.
    pub is_fixed: bool,
    /// How many firmware steps later than another a simulated slave decides a request to its AL control, 0 to 100.
    pub slow: u8,
    /// Whether a simulated slave sends an emergency as it enters PREOP from INIT.
    pub has_emergency: bool,
    /// How many FMMUs a simulated slave has, 2 to 4.
    pub fmmus: u8,
    /// Whether a device of any revision is one of the type.
    pub any_revision: bool,
}

impl ProcessManager {
    /// The manager of the outputs of a type that doesn't say which.
    pub fn usual_outputs() -> Self
        ensures { result ≡ usual_outputs }
    {
        ProcessManager {
            number: 2,
            control: 0x24,
        }
    }

    /// The manager of the inputs of a type that doesn't say which.
    pub fn usual_inputs() -> Self
        ensures { result ≡ usual_inputs }
    {
        ProcessManager {
            number: 3,
            control: 0x20,
        }
    }
}

impl Hardware {
    /// The number of the manager at a place: the directions have theirs, and the mailboxes the lowest that are
    /// left.
    pub fn number_at(&self, place: usize) -> usize
        requires { place < 4 }
        ensures { result ≡ number_at self.now place }
    {
        let first = self.free_from(0);
        match place {
            OUTPUTS_PLACE => usize::from(self.out_manager.number),
            INPUTS_PLACE => usize::from(self.in_manager.number),
            0 => first,
            _ => self.free_from(first + 1),
        }
    }

    /// The place of the manager with a number.
    pub fn place_at(&self, number: usize) -> usize
        ensures { result ≡ place_at self.now number }
    {
        if number == usize::from(self.out_manager.number) {
            OUTPUTS_PLACE
        } else if number == usize::from(self.in_manager.number) {
            INPUTS_PLACE
        } else if number == self.free_from(0) {
            0
        } else {
            1
        }
    }

    /// The other name of an address: see `SlaveType::other_name`.
    pub fn other_name(&self, address: u16) -> u16
        ensures { result ≡ other_name (Some self.now) address }
    {
        if self.has_pins {
            swapped(address)
        } else {
            address
        }
    }

    /// The lowest number from this one on that no direction has.
    fn free_from(&self, number: usize) -> usize
        requires { number ≤ 4 }
        ensures value { result ≡ free_from self.now number }
        ensures near { result ≤ number + 2 }
    {
        if !self.is_taken(number) {
            number
        } else if !self.is_taken(number + 1) {
            number + 1
        } else {
            number + 2
        }
    }

    /// Whether a direction has this number.
    fn is_taken(&self, number: usize) -> bool
        ensures { result ≡ is_taken self.now number }
    {
        number == usize::from(self.out_manager.number)
            || number == usize::from(self.in_manager.number)
    }
}

/// The name of an address on the other side: the register of the pins and the last bytes of the RAM change
/// places.
fn swapped(address: u16) -> u16
    ensures { result ≡ swapped address }
{
    if (PINS..PINS + PINS_SIZE).contains(&address) {
        address + (PINS_INSIDE - PINS)
    } else if (PINS_INSIDE..PINS_INSIDE + PINS_SIZE).contains(&address) {
        address - (PINS_INSIDE - PINS)
    } else {
        address
    }
}
