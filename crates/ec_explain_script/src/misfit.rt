//! Why a word can't stand for what a line needs in its place.
use crate::word::Word;
use ec_diagnostic::{Diagnosis, Meant, Nearest, Printable};
use ec_script::{
    WordKind, bounds_of, byte_of, code_of, hex_of, number_of, slave_named, state_named, times_of,
    variable_named,
};
use ec_table::Table;

/// The digits in which a number is written.
#[derive(Clone, Copy)]
enum Base {
    Decimal,
    Hex,
}

/// What to do about a word if nothing better is known.
pub const SEE_HELP: &str = "correct it; `ecat sim --help` lists the lines that a script has";

/// Adds remarks on a word that isn't of a kind, by the names of the table if there is one; returns whether it isn't.
pub fn explain_misfit(
    diagnosis: &mut Diagnosis<'_>,
    table: Option<&Table>,
    kind: WordKind,
    word: Word<'_>,
) -> bool {
    match fault_of(kind, word.text) {
        Some((fault, advice)) => {
            explain_fault(diagnosis, word, fault, advice);
            true
        }
        None => explain_unknown(diagnosis, table, kind, word),
    }
}

/// Adds remarks on a word that isn't of its kind.
fn explain_fault(diagnosis: &mut Diagnosis<'_>, word: Word<'_>, fault: &str, advice: &str) {
    let shown = Printable(word.text);
    diagnosis.at_span(word.span(), format_args!("`{shown}` {fault}"));
    diagnosis.advise(advice);
}

/// Adds remarks on a word that must be a name of the table and isn't; returns whether there are any.
fn explain_unknown(
    diagnosis: &mut Diagnosis<'_>,
    table: Option<&Table>,
    kind: WordKind,
    word: Word<'_>,
) -> bool {
    let Some(table) = table else {
        return false;
    };
    match kind {
        WordKind::Variable if variable_named(table.variables(), word.text).is_none() => {
            explain_no_variable(diagnosis, table, word);
            true
        }
        WordKind::Slave
            if !has_digits(word.text, Base::Decimal)
                && slave_named(table.slaves(), word.text).is_none() => {
            explain_no_slave(diagnosis, table, word);
            true
        }
        _ => false,
    }
}

/// Adds remarks on a word that is the name of no variable.
fn explain_no_variable(diagnosis: &mut Diagnosis<'_>, table: &Table, word: Word<'_>) {
    let (shown, near) = (
        Printable(word.text),
        Meant(variable_near(diagnosis, table, word.text)),
    );
    diagnosis.at_span(
        word.span(),
        format_args!("no variable has the name `{shown}`{near}"),
    );
    diagnosis.advise("correct the name, or add a variable of that name to the table");
}

/// The name of a variable that may have been meant.
fn variable_near<'t>(
    diagnosis: &mut Diagnosis<'_>,
    table: &'t Table,
    word: &str,
) -> Option<&'t str> {
    let (rows, mut near) = (table.variables(), Nearest::to(word));
    for (place, row) in rows.iter().enumerate() {
        near = diagnosis.nearer(near, word, place, row.name.as_str());
    }
    Some(rows.get(near.place?)?.name.as_str())
}

/// Adds remarks on a word that is the name of no slave.
fn explain_no_slave(diagnosis: &mut Diagnosis<'_>, table: &Table, word: Word<'_>) {
    let (shown, near) = (
        Printable(word.text),
        Meant(slave_near(diagnosis, table, word.text)),
    );
    diagnosis.at_span(
        word.span(),
        format_args!("no slave has the name `{shown}`{near}"),
    );
    diagnosis.advise(
        "correct the name, add a slave of that name to the table, or write its number",
    );
}

/// The name of a slave that may have been meant.
fn slave_near<'t>(diagnosis: &mut Diagnosis<'_>, table: &'t Table, word: &str) -> Option<&'t str> {
    let (rows, mut near) = (table.slaves(), Nearest::to(word));
    for (place, row) in rows.iter().enumerate() {
        near = diagnosis.nearer(near, word, place, row.name.as_str());
    }
    Some(rows.get(near.place?)?.name.as_str())
}

/// What 64 bits hold, and what to do, if 64 bits don't hold the number that a word writes. `None` for a byte and a number of times,
/// which have bounds of their own.
fn past_64_bits(kind: WordKind, word: &str) -> Option<(&'static str, &'static str)> {
    let advice = match kind {
        WordKind::Slave => "write the number of a slave, the first of which is 0, or its name",
        WordKind::Value => "write a value that the variable has the bits for",
        WordKind::Number => "write a smaller number",
        _ => return None,
    };
    let (digits, base, limit) = digits_of(kind, word);
    if has_digits(digits, base) && number_in(base, digits).is_none() {
        Some((limit, advice))
    } else {
        None
    }
}

/// What is wrong with a word that isn't of a kind, by its digits alone, and what to do.
fn fault_of(kind: WordKind, word: &str) -> Option<(&'static str, &'static str)> {
    past_64_bits(kind, word).or(misfit_of(kind, word))
}

/// What is wrong with a word that isn't of a kind, if 64 bits hold its number, and what to do.
fn misfit_of(kind: WordKind, word: &str) -> Option<(&'static str, &'static str)> {
    let (fits, fault) = match kind {
        WordKind::Variable | WordKind::Slave => return None,
        WordKind::Value => (
            is_value(word),
            "is no value: it is decimal, `0x` and hex digits, or `-` and decimal",
        ),
        WordKind::Range => (
            is_range(word),
            "is no range: it is two values with `..` between them",
        ),
        WordKind::Number => (
            number_of(word).is_some(),
            "is no number: it is written in decimal digits",
        ),
        WordKind::Byte => (
            byte_of(word).is_some(),
            "is no byte: it is 0 to 255, in decimal",
        ),
        WordKind::Times => (
            times_of(word).is_some(),
            "is no number of times: it is 1 to 1000000, in decimal",
        ),
        WordKind::State => (
            state_named(word).is_some(),
            "is no AL state: it is INIT, PREOP, SAFEOP or OP",
        ),
        WordKind::Code => (
            code_of(word).is_some(),
            "is no AL status code: it has four hex digits",
        ),
    };
    let advice = match kind {
        WordKind::Times => "write a number from 1 to 1000000",
        _ => SEE_HELP,
    };
    if fits { None } else { Some((fault, advice)) }
}

/// Whether a word is two values with `..` between them.
fn is_range(word: &str) -> bool {
    match bounds_of(word) {
        Some((low, high)) => is_value(low) && is_value(high),
        None => false,
    }
}

/// Whether a word writes a value.
fn is_value(word: &str) -> bool {
    let (digits, base, _) = digits_of(WordKind::Value, word);
    number_in(base, digits).is_some()
}

/// The digits of the number that a word writes, their base, and what 64 bits hold of such numbers.
fn digits_of(kind: WordKind, word: &str) -> (&str, Base, &'static str) {
    let is_value = kind == WordKind::Value;
    match (word.strip_prefix('-'), word.strip_prefix("0x")) {
        (Some(digits), _) if is_value => (
            digits,
            Base::Decimal,
            "is too small: 64 bits hold no less than -9223372036854775808",
        ),
        (_, Some(digits)) if is_value => (
            digits,
            Base::Hex,
            "is too large: 64 bits hold no more than 0xFFFFFFFFFFFFFFFF",
        ),
        _ => (
            word,
            Base::Decimal,
            "is too large: 64 bits hold no more than 18446744073709551615",
        ),
    }
}

/// The number that digits write, if 64 bits hold it.
fn number_in(base: Base, digits: &str) -> Option<u64> {
    match base {
        Base::Decimal => number_of(digits),
        Base::Hex => hex_of(digits),
    }
}

/// Whether a word has digits of this base alone, and one at least.
fn has_digits(word: &str, base: Base) -> bool {
    for byte in word.bytes() {
        let is_digit = match base {
            Base::Decimal => byte.is_ascii_digit(),
            Base::Hex => byte.is_ascii_hexdigit(),
        };
        if !is_digit {
            return false;
        }
    }
    !word.is_empty()
}
