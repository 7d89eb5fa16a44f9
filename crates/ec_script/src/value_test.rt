//! Tests of the value of a variable.
ghost use Rattle.std.specs.Prelude.{◌≡◌};
ghost use Rattle.ec_link.specs.Image.{number_of};
ghost use Rattle.ec_script.specs.Tests.{between_test, compared_test, compares, holds, masked_test};

use ec_link::Variable;

/// How a value is compared with a number.
#[derive(Clone, Copy, Debug, PartialEq, Eq, Drop)]
pub enum Comparison {
    Equal,
    Unequal,
    Less,
    LessEqual,
    Greater,
    GreaterEqual,
}

/// What is tested of the value of a variable. Each number is one that the variable's bits hold.
#[derive(Clone, Copy, Debug, PartialEq, Eq, Drop)]
pub enum ValueTest {
    /// It compares so with this number.
    Compared(Comparison, u64),
    /// Its bits in the first number are the second one; or with false, they aren't.
    Masked(u64, bool, u64),
    /// It is one of the numbers from the first to the second, both included.
    Between(u64, u64),
}

impl Comparison {
    /// Whether a value of a variable compares so with another: as numbers with a sign if the variable is signed.
    pub fn holds(self, variable: Variable, value: u64, other: u64) -> bool
        ensures { result ≡ compares (number_of variable) self value other }
    {
        let (left, right) = (variable.number(value), variable.number(other));
        match self {
            Comparison::Equal => value == other,
            Comparison::Unequal => value != other,
            Comparison::Less => left < right,
            Comparison::LessEqual => left <= right,
            Comparison::Greater => left > right,
            Comparison::GreaterEqual => left >= right,
        }
    }
}

impl ValueTest {
    /// Whether a value of a variable meets the test.
    pub fn holds(self, variable: Variable, value: u64) -> bool
        ensures { result ≡ holds (number_of variable) self value }
    {
        match self {
            ValueTest::Compared(comparison, number) => comparison.holds(variable, value, number),
            ValueTest::Masked(mask, true, number) => value & mask == number,
            ValueTest::Masked(mask, false, number) => value & mask != number,
            ValueTest::Between(low, high) => {
                let number = variable.number(value);
                variable.number(low) <= number && number <= variable.number(high)
            }
        }
    }
}

/// The test that a value compares so with a number; `None` without one.
pub fn compared_test(comparison: Comparison, number: Option<u64>) -> Option<ValueTest>
    ensures { result ≡ compared_test comparison number }
{
    Some(ValueTest::Compared(comparison, number?))
}

/// The test of a masked value; `None` without a mask or a number, and if the number has bits outside the mask.
pub fn masked_test(is: bool, mask: Option<u64>, number: Option<u64>) -> Option<ValueTest>
    ensures { result ≡ masked_test is mask number }
{
    let (mask, number) = (mask?, number?);
    if number & mask == number {
        Some(ValueTest::Masked(mask, is, number))
    } else {
        None
    }
}

/// The test that a value lies between two numbers; `None` without one of them.
pub fn between_test(low: Option<u64>, high: Option<u64>) -> Option<ValueTest>
    ensures { result ≡ between_test low high }
{
    Some(ValueTest::Between(low?, high?))
}
