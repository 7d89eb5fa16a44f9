//! Parameters: the SDO downloads that a device wants before its process data.
ghost use Rattle.std.specs.Prelude.{◌≡◌, ◌==◌, ◌&&◌};
ghost use Rattle.ec_device.specs.Parameters.{byte_count, bit_count, is_of, parameter_at};

/// How many parameters a type may have, and its slave as many again.
pub const MAX_PARAMETERS: usize = 64;

/// How many bytes a parameter has.
#[derive(Clone, Copy, Debug, PartialEq, Eq)]
pub enum ParameterSize {
    /// 8 bits.
    One,
    /// 16 bits.
    Two,
    /// 32 bits.
    Four,
}

/// An expedited SDO download in PREOP (ETG.1000.6, "SDO download expedited"): the object, and the value that it gets.
#[derive(Clone, Copy, Debug, PartialEq, Eq)]
pub struct Parameter {
    /// The index of the object.
    pub index: u16,
    /// The subindex in that object.
    pub subindex: u8,
    /// How many bytes its value has.
    pub size: ParameterSize,
    /// The value, little-endian on the wire; one below 0 in two's complement.
    pub value: u32,
}

impl ParameterSize {
    /// The number of bytes.
    pub fn bytes(self) -> u8
        ensures { result ≡ byte_count self }
    {
        match self {
            ParameterSize::One => 1,
            ParameterSize::Two => 2,
            ParameterSize::Four => 4,
        }
    }

    /// The number of bits.
    pub fn bits(self) -> u8
        ensures { result ≡ bit_count self }
    {
        match self {
            ParameterSize::One => 8,
            ParameterSize::Two => 16,
            ParameterSize::Four => 32,
        }
    }
}

impl Parameter {
    /// Whether it is a download to this object.
    pub fn is_of(&self, index: u16, subindex: u8) -> bool
        ensures { result ≡ is_of index subindex self.now }
    {
        self.index == index && self.subindex == subindex
    }
}

/// The place of the first of some parameters that is a download to this object, none if there is none.
pub fn parameter_at(parameters: &[Parameter], index: u16, subindex: u8) -> Option<usize>
    ensures { result ≡ parameter_at parameters.now index subindex }
{
    parameters
        .iter()
        .position(|parameter| parameter.is_of(index, subindex))
}
