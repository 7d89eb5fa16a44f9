//! The values that expedited SDOs carry.

ghost use Rattle.std.specs.Prelude.{◌≡◌};
ghost use Rattle.ec_coe.specs.Messages.{size_number};
ghost use Rattle.ec_coe.specs.Objects.{byte_value, word_value, long_value, value_of};
ghost use Rattle.ec_coe.specs.SwitchedOn.{value_size};

use ec_device::ParameterSize;

/// How many bytes a value has, as the command of an expedited SDO says it.
#[derive(Clone, Copy, Debug, PartialEq, Eq)]
pub enum ValueSize {
    /// 1 byte.
    One,
    /// 2 bytes.
    Two,
    /// 3 bytes.
    Three,
    /// 4 bytes.
    Four,
}

impl ValueSize {
    /// As many bytes as a parameter of this size has.
    pub fn of(size: ParameterSize) -> Self
        ensures { result ≡ value_size size }
    {
        match size {
            ParameterSize::One => ValueSize::One,
            ParameterSize::Two => ValueSize::Two,
            ParameterSize::Four => ValueSize::Four,
        }
    }

    /// The number of bytes.
    pub fn number(self) -> u8
        ensures { result ≡ size_number self }
    {
        match self {
            ValueSize::One => 1,
            ValueSize::Two => 2,
            ValueSize::Three => 3,
            ValueSize::Four => 4,
        }
    }
}

/// A value of 1 to 4 bytes, little-endian on the wire.
#[derive(Clone, Copy, Debug, PartialEq, Eq)]
pub struct SdoValue {
    /// How many bytes it has.
    pub size: ValueSize,
    /// The bytes as a number.
    pub number: u32,
}

impl SdoValue {
    /// A value of one byte.
    pub fn byte(number: u8) -> Self
        ensures { result ≡ byte_value number }
    {
        SdoValue {
            size: ValueSize::One,
            number: number as u32,
        }
    }

    /// A value of two bytes.
    pub fn word(number: u16) -> Self
        ensures { result ≡ word_value number }
    {
        SdoValue {
            size: ValueSize::Two,
            number: number as u32,
        }
    }

    /// A value of four bytes.
    pub fn long(number: u32) -> Self
        ensures { result ≡ long_value number }
    {
        SdoValue {
            size: ValueSize::Four,
            number,
        }
    }

    /// The value in as many of the four bytes of data as the size says; `bytes` is all four as a number.
    pub fn of(size: ValueSize, bytes: u32) -> Self
        ensures { result ≡ value_of size bytes }
    {
        let number = match size {
            ValueSize::One => bytes % 0x100,
            ValueSize::Two => bytes % 0x1_0000,
            ValueSize::Three => bytes % 0x100_0000,
            ValueSize::Four => bytes,
        };
        SdoValue { size, number }
    }
}
