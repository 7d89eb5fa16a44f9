//! Refusals: the number, name and values of each error by which the program is refused, and its text.
ghost use Rattle.std.specs.Prelude.{◌≡◌, ◌+◌, ◌*◌, ◌≤◌, ◌++◌, length};
ghost use Rattle.arrayvec.specs.ArrayString.{array_string_len};
ghost use Rattle.ec_text.specs.RefusalText.{row_line, row_text, values_text};

use crate::digits::{push_number, push_value};
use arrayvec::{ArrayString, ArrayVec};
use ec_cycle::CycleError;
use ec_decode::{DecodeError, error_name};
use ec_frame::FrameError;
use ec_link::LinkError;
use ec_start::StartError;
use ec_table::TableError;

/// The values of a refusal, at most four.
pub type Values = ArrayVec<u64, 4>;

/// The most bytes that the text of a refusal may have. It has a number and four values of 20 digits each, a blank before each value
/// and the name, and a name of 16 letters.
const TEXT_SIZE: usize = 121;

/// Room for the line of a refusal: `ecat: `, its text and its end have at most 128 bytes.
const LINE_SIZE: usize = 160;

/// An error by which the program is refused. It has a row in the table of refusals: a number, a name, and the values that stand
/// behind them.
pub trait Refused {
    ghost use Rattle.ec_text.specs.RefusalText.{RefusalRow};

    /// Its number, its name and its values.
    ghost row_of: { Self → RefusalRow };

    /// The number of the refusal.
    fn number(&self) -> u8
        ensures { result ≡ (row_of self.now).number };

    /// The name of the refusal, one word of at most 16 letters.
    fn name(&self) -> &'static str
        ensures value { result.now ≡ (row_of self.now).name }
        ensures short { length result.now ≤ 16 };

    /// The values behind the name, at most four, in the order in which they are printed.
    fn values(&self) -> Values
        ensures { result.items ≡ (row_of self.now).values };
}

/// These values, at most four, as a list.
pub fn listed(values: &[u64]) -> Values
    requires { length values.now ≤ 4 }
    ensures { result.items ≡ values.now }
{
    let mut all = Values::new();
    let _ = all.try_extend_from_slice(values);
    all
}

impl Refused for FrameError {
    ghost use Rattle.ec_text.specs.RefusalText.{frame_row};

    ghost row_of = { frame_row };

    fn number(&self) -> u8 {
        (*self).number()
    }

    #[tactic(auto, using(crate::proofs::RefusalNames::short_frame))]
    fn name(&self) -> &'static str {
        error_name(*self)
    }

    fn values(&self) -> Values {
        Values::new()
    }
}

impl Refused for DecodeError {
    ghost use Rattle.ec_text.specs.RefusalText.{decode_row};

    ghost row_of = { decode_row };

    fn number(&self) -> u8 {
        (*self).number()
    }

    #[tactic(auto, using(crate::proofs::RefusalNames::short_decode))]
    fn name(&self) -> &'static str {
        (*self).name()
    }

    fn values(&self) -> Values {
        match self.line() {
            None => Values::new(),
            Some(line) => listed(&[line as u64]),
        }
    }
}

impl Refused for TableError {
    ghost use Rattle.ec_text.specs.RefusalText.{table_row};

    ghost row_of = { table_row };

    fn number(&self) -> u8 {
        (*self).number()
    }

    #[tactic(auto, using(crate::proofs::RefusalNames::short_table))]
    fn name(&self) -> &'static str {
        (*self).name()
    }

    fn values(&self) -> Values {
        match self.place() {
            None => Values::new(),
            Some(place) => listed(&[u64::from(place.section.number()), place.element as u64]),
        }
    }
}

impl Refused for LinkError {
    ghost use Rattle.ec_text.specs.RefusalText.{link_row};

    ghost row_of = { link_row };

    fn number(&self) -> u8 {
        (*self).number()
    }

    #[tactic(auto, using(crate::proofs::RefusalNames::short_link))]
    fn name(&self) -> &'static str {
        (*self).name()
    }

    fn values(&self) -> Values {
        match self {
            LinkError::Memory => Values::new(),
            LinkError::Refused(fault) => listed(&[fault.value() as u64]),
        }
    }
}

impl Refused for StartError {
    ghost use Rattle.ec_text.specs.RefusalText.{start_row};

    ghost row_of = { start_row };

    fn number(&self) -> u8 {
        (*self).number()
    }

    #[tactic(auto, using(crate::proofs::RefusalNames::short_start))]
    fn name(&self) -> &'static str {
        (*self).name()
    }

    fn values(&self) -> Values {
        (*self).values()
    }
}

impl Refused for CycleError {
    ghost use Rattle.ec_text.specs.RefusalText.{cycle_row};

    ghost row_of = { cycle_row };

    fn number(&self) -> u8 {
        (*self).number()
    }

    #[tactic(auto, using(crate::proofs::RefusalNames::short_cycle))]
    fn name(&self) -> &'static str {
        (*self).name()
    }

    fn values(&self) -> Values {
        Values::new()
    }
}

/// The text of a refusal: its number, its name and its values in decimal, with blanks between. It allocates nothing.
pub fn refusal_text<E: Refused>(error: &E) -> ArrayString<TEXT_SIZE>
    ensures { result.bytes ≡ row_text (E.row_of error.now) }
{
    let mut text = ArrayString::new();
    push_number(&mut text, u64::from(error.number()));
    text.push_str(" ");
    text.push_str(error.name());
    push_values(&mut text, error.values().as_slice());
    text
}

/// The line of a refusal: `ecat: NUMBER NAME VALUES` and its end. It allocates nothing.
pub fn refusal_line<E: Refused>(error: &E) -> ArrayString<LINE_SIZE>
    ensures { result.bytes ≡ row_line (E.row_of error.now) }
{
    let mut line = ArrayString::new();
    line.push_str("ecat: ");
    line.push_str(refusal_text(error).as_str());
    line.push_str("\n");
    line
}

/// Adds values to a text, each in decimal with a blank before it.
#[tactic(auto, using(crate::proofs::Values::value_steps))]
fn push_values<const N: usize>(text: &mut ArrayString<N>, values: &[u64])
    requires { array_string_len text.old + 21 * length values.now ≤ N }
    ensures bytes { text.new.bytes ≡ text.old.bytes ++ values_text values.now }
    ensures room { array_string_len text.new ≤ array_string_len text.old + 21 * length values.now }
{
    for value in values {
        push_value(text, *value);
    }
}
