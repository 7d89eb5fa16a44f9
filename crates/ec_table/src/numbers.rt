//! Numbers with a sign.
ghost use Rattle.std.specs.Prelude.{◌≡◌};
ghost use Rattle.ec_table.specs.Numbers.{number_in};

/// The number that a value of so many bits, 1 to 64, is for people: two's complement if it is signed.
pub fn number_in(signed: bool, bits: u8, value: u64) -> i128
    ensures { result ≡ number_in signed bits value }
{
    let half = 1u64 << u32::from(bits).saturating_sub(1).min(63);
    let number = i128::from(value);
    if signed && value >= half {
        number - 2 * i128::from(half)
    } else {
        number
    }
}
