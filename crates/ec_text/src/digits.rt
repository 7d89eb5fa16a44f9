//! Numbers in decimal, in a line of fixed room, words in hex, and working counters. A number of 64 bits has at most 20 digits.
ghost use Rattle.std.specs.Prelude.{◌≡◌, ◌+◌, ◌≤◌, ◌∷◌, ◌++◌, OnErr, OnOk, string_bytes};
ghost use Rattle.std.specs.Fmt.{decimal};
ghost use Rattle.arrayvec.specs.ArrayString.{array_string_len};
ghost use Rattle.ec_text.specs.PlanText.{counter_text};
ghost use Rattle.ec_text.specs.ReportText.{word_text};

use arrayvec::ArrayString;
use ec_link::{ExpectedCounters, PartPlan};
use itoa::Buffer;
use std::alloc::{AllocError, Global};

/// The most bytes that the working counters of a part may have: two numbers and what stands between them.
const COUNTER_SIZE: usize = 41;

/// Adds working counters of a part, as `ecat plan` and reports print them.
///
/// # Errors
///
/// `AllocError` if memory ran out; the text is then as it was.
pub fn write_counter(
    text: &mut String,
    part: &PartPlan,
    predicted: ExpectedCounters,
) -> Result<(), AllocError>
    ensures added { OnOk result
        (string_bytes text.new ≡ string_bytes text.old ++ counter_text part.now predicted) }
    ensures unchanged { OnErr result (string_bytes text.new ≡ string_bytes text.old) }
{
    text.push_str(counter_of(part, predicted).as_str())
}

/// Adds a word as four hex digits.
///
/// # Errors
///
/// `AllocError` if memory ran out.
pub fn write_word(alloc: Global, text: &mut String, word: u16) -> Result<(), AllocError>
    ensures { OnOk result (string_bytes text.new ≡ string_bytes text.old ++ word_text word) }
{
    let digits = hex::encode(alloc, &[(word / 256) as u8, (word % 256) as u8])?;
    text.push_str(digits.as_str())
}

/// Adds a number in decimal.
pub fn push_number<const N: usize>(line: &mut ArrayString<N>, number: u64)
    requires { array_string_len line.old + 20 ≤ N }
    ensures bytes { line.new.bytes ≡ line.old.bytes ++ decimal number }
    ensures room { array_string_len line.new ≤ array_string_len line.old + 20 }
{
    let mut buffer = Buffer::new();
    line.push_str(buffer.format(number));
}

/// Adds a number in decimal, with a blank before it.
pub fn push_value<const N: usize>(line: &mut ArrayString<N>, value: u64)
    requires { array_string_len line.old + 21 ≤ N }
    ensures bytes { line.new.bytes ≡ line.old.bytes ++ 32 ∷ decimal value }
    ensures room { array_string_len line.new ≤ array_string_len line.old + 21 }
{
    line.push_str(" ");
    push_number(line, value);
}

/// Working counters of a part: that of its LRW, `W/R` of its LWR and its LRD, or `0` if a split part has no byte.
fn counter_of(part: &PartPlan, predicted: ExpectedCounters) -> ArrayString<COUNTER_SIZE>
    ensures { result.bytes ≡ counter_text part.now predicted }
{
    let mut counter = ArrayString::new();
    match predicted {
        ExpectedCounters::Lrw(count) => push_number(&mut counter, count as u64),
        ExpectedCounters::Split { .. } if part.bytes == 0 => counter.push_str("0"),
        ExpectedCounters::Split { write, read } => {
            push_number(&mut counter, write as u64);
            counter.push_str("/");
            push_number(&mut counter, read as u64);
        }
    }
    counter
}
