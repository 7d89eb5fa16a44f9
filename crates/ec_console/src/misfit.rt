//! Variables that have too few bits for a value, in words.
use ec_diagnostic::{Counted, Printable};
use ec_table::Table;
use std::fmt;

/// A variable that has too few bits for a value, also for a number of more than 64 bits. It is printed as the reason why it isn't set.
/// The least value is that of a two's complement of its bits, and so is the greatest of a signed variable.
#[derive(Clone, Copy)]
pub struct Misfit<'t> {
    pub table: &'t Table,
    pub variable: usize,
}

impl fmt::Display for Misfit<'_> {
    fn fmt<W: fmt::Write>(&self, f: &mut fmt::Formatter<W>) -> fmt::Result {
        let Misfit { table, variable } = *self;
        let Some(row) = table.variables().get(variable) else {
            return write!(f, "the table has no variable {variable}");
        };
        let name = Printable(row.name.as_str());
        let bits = Counted(usize::from(row.bits), "bit");
        let power = 1_u64.checked_shl(u32::from(row.bits.saturating_sub(1)));
        let least = power.unwrap_or(0);
        let most = if row.signed {
            least.saturating_sub(1)
        } else {
            greatest(row.bits)
        };
        write!(
            f,
            "`{name}` has {bits}, and its values go from -{least} to {most}"
        )
    }
}

/// The greatest value of `bits` bits.
pub fn greatest(bits: u8) -> u64 {
    match 1_u64.checked_shl(u32::from(bits)) {
        Some(power) => power.saturating_sub(1),
        None => u64::MAX,
    }
}
