//! The values under the keys of a table.
ghost use Rattle.std.specs.Prelude.{◌≡◌, ◌<◌, ◌≤◌, ◌||◌, IfOk, IfSome, None, Some, get_or, is_some, not};
ghost use Rattle.std.specs.List.{list_all, position};
ghost use Rattle.std.specs.Option.{option_or};
ghost use Rattle.std.specs.Str.{bytes_eq};
ghost use Rattle.toml.specs.Data.{get_member};
ghost use Rattle.toml.specs.View.{view, table_view};
ghost use Rattle.ec_table.specs.Fields.{full_format, keys_are, number_in, number_or_0, viewed};
ghost use Rattle.ec_table.specs.Keys.{index_range, names_of, number_range, place_in, rule_at};
ghost use Rattle.ec_table.specs.Values.{AreUnder};

use crate::fault::{Fault, Position};
use crate::fields::{are_same, member, number_in, number_or_0};
use crate::keys::{Key, MAX_KEYS, Shape};
use crate::rows::Format;
use toml::Value;

/// The values under the keys of a table, in the order of its shape's keys in the format that has every key, none for a key that
/// the table doesn't have.
#[derive(Clone, Copy)]
pub struct Values<'a> {
    shape: Shape,
    found: [Option<&'a Value>; MAX_KEYS],
}

impl<'a> Values<'a> {
    /// The value under the key at a place.
    pub fn at(&self, place: usize) -> Option<&'a Value>
        requires { place < 18 }
        ensures { result ≡ get_or self.now.found place None }
    {
        let found = &self.found[..];
        found[place]
    }

    /// The number under the key at a place, in the key's range, or the fault `BadValue`.
    pub fn number(&self, position: Position, place: usize) -> Result<u32, Fault>
        requires { place < 18 }
        ensures value { let range = number_range (rule_at self.now.shape place) in
            result ≡ number_in position range.0 range.1 (viewed (get_or self.now.found place None)) }
        ensures range { let range = number_range (rule_at self.now.shape place) in
            IfOk result (λ n. (range.0 ≤ n) × (n ≤ range.1)) }
    {
        let (low, high) = self.shape.rule(place).range();
        number_in(position, self.at(place), low, high)
    }

    /// The number under the key at a place, up to the most that the key takes, 0 if it is left out.
    pub fn number_or_0(&self, position: Position, place: usize) -> Result<u32, Fault>
        requires { place < 18 }
        ensures value { let range = number_range (rule_at self.now.shape place) in
            result ≡ number_or_0 position range.1 (viewed (get_or self.now.found place None)) }
        ensures range { let range = number_range (rule_at self.now.shape place) in
            IfOk result (λ n. n ≤ range.1) }
    {
        let (_, most) = self.shape.rule(place).range();
        number_or_0(position, self.at(place), most)
    }

    /// The range of the PDO indices that the key at a place takes.
    pub fn indices(&self, place: usize) -> (u16, u16)
        ensures { result ≡ index_range (rule_at self.now.shape place) }
    {
        self.shape.rule(place).indices()
    }
}

/// The values under the keys of a table; none if some key isn't known in this format, or one is missing that
/// the table must have.
pub fn values_of<'a>(shape: Shape, format: Format, members: &'a toml::Table) -> Option<Values<'a>>
    ensures keys { is_some result ≡ keys_are shape format (table_view members.now) }
    ensures shape { IfSome result (λ v. v.shape ≡ shape) }
    ensures values { IfSome result (λ v. AreUnder v.found 0 (names_of shape full_format) (table_view members.now)) }
{
    let mut found = [None; MAX_KEYS];
    for (key, value) in members.iter() {
        let place = place_of(shape, format, key.as_str())?;
        found[place] = first(found[place], value);
    }
    if has_needed(shape.keys(format), members) {
        Some(Values { shape, found })
    } else {
        None
    }
}

/// The place of a name among all keys of a shape, if it is a key in this format.
fn place_of(shape: Shape, format: Format, name: &str) -> Option<usize>
    ensures { result ≡ place_in shape format name.now }
{
    place_among(shape.keys(format), name)?;
    place_among(shape.keys(Format::full()), name)
}

/// The place of a name among keys.
fn place_among(keys: &[Key], name: &str) -> Option<usize>
    ensures { result ≡ position (λ k. bytes_eq name.now k.0.now) keys.now }
{
    keys.iter().position(|key| are_same(name, key.0))
}

/// The first value that was met under a key: `found` if there is one, else `value`.
fn first<'a>(found: Option<&'a Value>, value: &'a Value) -> Option<&'a Value>
    ensures { viewed result ≡ option_or (viewed found.entry) (Some (view value.now)) }
{
    match found {
        Some(_) => found,
        None => Some(value),
    }
}

/// Whether a table has each of some keys that it must have.
fn has_needed(keys: &[Key], members: &toml::Table) -> bool
    ensures { result ≡ list_all (λ k. not k.2 || is_some (get_member k.0.now (table_view members.now))) keys.now }
{
    keys.iter().all(|key| !key.2 || has_member(members, key.0))
}

/// Whether there is a value under a key.
#[tactic(auto, using(crate::proofs::KeyPlaces::is_seen))]
fn has_member(members: &toml::Table, key: &str) -> bool
    ensures { result ≡ is_some (get_member key.now (table_view members.now)) }
{
    member(members, key).is_some()
}
