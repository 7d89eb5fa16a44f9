//! Why what a line expects isn't so: what was and what was expected, in words with names of the table.
use ec_asking::AlStatus;
use ec_diagnostic::Printable;
use ec_link::Variable;
use ec_script::{Comparison, Expectation, MasterView, ValueTest, state_name};
use ec_table::{Table, VariableRow};
use std::fmt;

/// What a line found that expects something and isn't met. It is printed as what was and what was expected, on one line.
#[derive(Clone, Copy)]
pub struct Missed<'v, 'p> {
    pub table: &'v Table,
    pub view: &'v MasterView<'v, 'p>,
    pub expected: Expectation,
    /// The value of the variable that something is expected of; `None` if nothing shows it.
    pub value: Option<u64>,
    /// What the slave says of its AL state; `None` if it doesn't answer.
    pub status: Option<AlStatus>,
}

/// A value of a variable, printed as the number that it is for people.
#[derive(Clone, Copy)]
struct Value<'t> {
    row: &'t VariableRow,
    value: u64,
}

/// What is expected of a value of a variable.
#[derive(Clone, Copy)]
enum Wanted {
    Value(u64),
    Test(ValueTest),
    /// A number that the variable's bits can't hold, or with bits outside a mask.
    Misfit,
}

impl Wanted {
    /// Whether a value of a variable is as expected.
    fn holds(self, row: &VariableRow, value: u64) -> bool {
        match self {
            Wanted::Value(number) => value == number,
            Wanted::Test(test) => test.holds(variable_of(row), value),
            Wanted::Misfit => false,
        }
    }
}

/// The variable of a row, for tests and numbers; where it begins in the image makes no difference to them.
fn variable_of(row: &VariableRow) -> Variable {
    Variable {
        direction: row.direction,
        from: 0,
        bits: row.bits,
        signed: row.signed,
    }
}

impl fmt::Display for Missed<'_, '_> {
    fn fmt<W: fmt::Write>(&self, f: &mut fmt::Formatter<W>) -> fmt::Result {
        match self.expected {
            Expectation::Is(variable, value) => {
                self.write_variable(f, variable, Wanted::Value(value))
            }
            Expectation::Holds(variable, test) => {
                self.write_variable(f, variable, Wanted::Test(test))
            }
            Expectation::Never(variable) => self.write_variable(f, variable, Wanted::Misfit),
            Expectation::Units(taken) => self.write_units(f, taken),
            Expectation::Unit(unit, taken) => self.write_unit(f, unit, taken),
            Expectation::State(slave, state, code) => {
                self.write_status(f, slave)?;
                write!(f, ", expected {}", state.name())?;
                match code {
                    Some(code) => write!(f, " {code:04x}"),
                    None => Ok(()),
                }
            }
            Expectation::Ready => {
                self.write_outcome(f)?;
                f.write_str(", expected ready")
            }
            Expectation::Failed(number) => {
                self.write_outcome(f)?;
                match number {
                    Some(number) => write!(f, ", expected failed {number}"),
                    None => f.write_str(", expected failed"),
                }
            }
        }
    }
}

impl Missed<'_, '_> {
    /// Writes what a variable is, and what was expected of it.
    fn write_variable<W: fmt::Write>(
        &self,
        f: &mut fmt::Formatter<W>,
        variable: usize,
        wanted: Wanted,
    ) -> fmt::Result {
        let Some(row) = self.table.variables().get(variable) else {
            return write!(f, "the table has no variable {variable}");
        };
        let name = Printable(row.name.as_str());
        match (self.value, wanted) {
            (None, _) => write!(f, "no slave publishes all of {name}")?,
            (Some(value), wanted) if wanted.holds(row, value) => {
                write!(f, "{name} isn't the same at all of its slaves")?
            }
            (Some(value), _) => write!(f, "{name} is {}", Value { row, value })?,
        }
        write_wanted(f, row, wanted)
    }

    /// Writes which sync units the last report has as taken.
    fn write_units<W: fmt::Write>(&self, f: &mut fmt::Formatter<W>, taken: bool) -> fmt::Result {
        let view = self.view;
        match view.report {
            None => f.write_str("there is no report yet")?,
            Some(report) => {
                let words = report.units().iter().zip(report.units_taken());
                f.write_str("the last report has")?;
                for (place, (unit, was)) in words.enumerate() {
                    let comma = if place == 0 { "" } else { "," };
                    write!(f, "{comma} unit {unit} {}", taken_word(*was))?;
                }
            }
        }
        match taken {
            true => f.write_str(", expected all taken"),
            false => f.write_str(", expected none taken"),
        }
    }

    /// Writes whether the last report has a sync unit as taken.
    fn write_unit<W: fmt::Write>(
        &self,
        f: &mut fmt::Formatter<W>,
        unit: u64,
        taken: bool,
    ) -> fmt::Result {
        let view = self.view;
        let Some(report) = view.report else {
            return write!(f, "there is no report yet, expected {}", taken_word(taken));
        };
        for number in report.units() {
            if u64::from(*number) == unit {
                let (was, wanted) = (taken_word(!taken), taken_word(taken));
                return write!(
                    f,
                    "the last report has unit {unit} {was}, expected {wanted}"
                );
            }
        }
        write!(f, "the table has no sync unit {unit}")
    }

    /// Writes the AL state of a slave.
    fn write_status<W: fmt::Write>(&self, f: &mut fmt::Formatter<W>, slave: usize) -> fmt::Result {
        let Some(row) = self.table.slaves().get(slave) else {
            return write!(f, "there is no slave {slave}");
        };
        let name = Printable(row.name.as_str());
        match self.status {
            None => write!(f, "slave {slave} `{name}` doesn't answer"),
            Some(status) => {
                let (state, code) = (state_name(status.word % 16), status.code);
                write!(f, "slave {slave} `{name}` is in {state} {code:04x}")
            }
        }
    }

    /// Writes how the last start-up ended.
    fn write_outcome<W: fmt::Write>(&self, f: &mut fmt::Formatter<W>) -> fmt::Result {
        let view = self.view;
        match view.outcome {
            None => f.write_str("no start-up has ended"),
            Some(Ok(())) => f.write_str("the start-up is ready"),
            Some(Err(error)) => write!(f, "the start-up failed by {}", error.number()),
        }
    }
}

impl fmt::Display for Value<'_> {
    fn fmt<W: fmt::Write>(&self, f: &mut fmt::Formatter<W>) -> fmt::Result {
        write!(f, "{}", variable_of(self.row).number(self.value))
    }
}

/// Writes what is expected of a variable.
fn write_wanted<W: fmt::Write>(
    f: &mut fmt::Formatter<W>,
    row: &VariableRow,
    wanted: Wanted,
) -> fmt::Result {
    let shown = |value| Value { row, value };
    match wanted {
        Wanted::Value(number) => write!(f, ", expected {}", shown(number)),
        Wanted::Test(ValueTest::Compared(comparison, number)) => {
            write!(f, ", expected {} {}", sign_of(comparison), shown(number))
        }
        Wanted::Test(ValueTest::Masked(mask, is, number)) => {
            let sign = if is { "==" } else { "!=" };
            write!(f, ", expected & 0x{mask:x} {sign} 0x{number:x}")
        }
        Wanted::Test(ValueTest::Between(low, high)) => {
            write!(f, ", expected {}..{}", shown(low), shown(high))
        }
        Wanted::Misfit => f.write_str(", and no value of it can be as expected"),
    }
}

/// How a comparison is written.
fn sign_of(comparison: Comparison) -> &'static str {
    match comparison {
        Comparison::Equal => "==",
        Comparison::Unequal => "!=",
        Comparison::Less => "<",
        Comparison::LessEqual => "<=",
        Comparison::Greater => ">",
        Comparison::GreaterEqual => ">=",
    }
}

/// The word for a sync unit that was taken or not.
fn taken_word(taken: bool) -> &'static str {
    if taken { "taken" } else { "untaken" }
}
