//! Numbers in a list of a document.
use crate::reading::items_of;
use ec_diagnostic::comma;
use std::fmt;
use toml::Value;

/// The numbers of a list, or the indices of its tables; 0 for an item that is neither. They are printed as a list of numbers in hex.
#[derive(Clone, Copy, Drop)]
pub struct Numbers<'v> {
    items: &'v [Value],
}

impl<'v> Numbers<'v> {
    /// The numbers of a list; none if there is no list.
    pub fn under(list: Option<&'v Value>) -> Numbers<'v> {
        Numbers {
            items: items_of(list),
        }
    }

    /// Whether both are the same numbers in the same order.
    pub fn is_same(self, others: Numbers<'_>) -> bool {
        for (number, other) in self.items.iter().zip(others.items) {
            if number_of(number) != number_of(other) {
                return false;
            }
        }
        self.items.len() == others.items.len()
    }

    /// The first number that isn't among others, with its place.
    pub fn first_not_in(self, others: Numbers<'_>) -> Option<(usize, i64)> {
        for (index, item) in self.items.iter().enumerate() {
            let number = number_of(item);
            if others.place_of(number, others.items.len()).is_none() {
                return Some((index, number));
            }
        }
        None
    }

    /// The places of the first two that are the same number, and that number.
    pub fn twice(self) -> Option<(usize, usize, i64)> {
        for (second, item) in self.items.iter().enumerate() {
            let number = number_of(item);
            if let Some(first) = self.place_of(number, second) {
                return Some((first, second, number));
            }
        }
        None
    }

    /// The first place of a number before the place `end`.
    fn place_of(self, number: i64, end: usize) -> Option<usize> {
        for (index, item) in self.items.iter().take(end).enumerate() {
            if number_of(item) == number {
                return Some(index);
            }
        }
        None
    }
}

impl fmt::Display for Numbers<'_> {
    fn fmt<W: fmt::Write>(&self, f: &mut fmt::Formatter<W>) -> fmt::Result {
        if self.items.is_empty() {
            return f.write_str("none");
        }
        for (index, item) in self.items.iter().enumerate() {
            let (before, number) = (comma(index, self.items.len()), number_of(item));
            write!(f, "{before}0x{number:04X}")?;
        }
        Ok(())
    }
}

/// An item as a number, or its index; 0 without either, or below 0.
fn number_of(item: &Value) -> i64 {
    let number = item.get("index").unwrap_or(item).as_integer();
    number.unwrap_or(0).max(0)
}
