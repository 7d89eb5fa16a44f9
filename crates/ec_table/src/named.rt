//! Rows with names, each of which stands once.
ghost use Rattle.std.specs.Prelude.{◌≡◌, [], ◌∷◌, ◌++◌, false, IfOk, IfSome, Some, length, option_map, slice_get};
ghost use Rattle.ec_table.specs.Names.{is_named, index_named};

use crate::fields::are_same;
use crate::rows::Name;
use arrayvec::ArrayString;
use ec_listed::Listed;
use std::alloc::{AllocError, Global};
use std::collections::HashMap;
use std::marker::Model;

/// A row with a name.
pub trait Named: Drop {
    ghost use Rattle.std.specs.Prelude.{List, ℕ};

    ghost name: { Self → List ℕ };

    /// The name.
    fn own_name(&self) -> &Name
        ensures { result.now ≡ name self.now };
}

/// The rows of a section in order, and a map from each name to its place.
#[derive(Drop)]
pub struct NamedRows<X: Named> {
    rows: Listed<X>,
    places: HashMap<ArrayString<32>, usize>,
}

impl<X: Named> Model for NamedRows<X> {
    ghost use Rattle.std.specs.Prelude.{◌≡◌, List, ℕ};
    ghost use Rattle.std.specs.Str.{bytes_eq};
    ghost use Rattle.std.specs.HashMap.{get_by};
    ghost use Rattle.ec_table.specs.Names.{index_named};
    ghost use Rattle.ec_table.specs.Unique.{AreApart};

    ghost Value = { List X };

    ghost view = { λ a. a.rows };

    ghost invariant = { λ a. ((q : List ℕ) → get_by (λ k. bytes_eq q k.bytes) a.places ≡ index_named X.name q a.rows) × AreApart X.name a.rows };
}

impl<X: Named> NamedRows<X> {
    /// A section without rows.
    pub fn new(alloc: Global) -> Self
        ensures { result ≡ [] }
    {
        NamedRows {
            rows: Listed::new(alloc),
            places: HashMap::new(alloc),
        }
    }

    /// The place of the row with a name. It tries the row at `near` first: a good guess spares the look into the map.
    pub fn place_of(&self, name: &Name, near: usize) -> Option<usize>
        ensures { result ≡ index_named X.name name.now self.now }
    {
        let rows = self.rows.as_slice();
        if near < rows.len() && are_same(rows[near].own_name().as_str(), name.as_str()) {
            Some(near)
        } else {
            self.by_map(name)
        }
    }

    /// The row with a name, and its place. It tries the row at `near` first.
    pub fn find(&self, name: &Name, near: usize) -> Option<(usize, &X)>
        ensures place { option_map (λ r. r.0) result ≡ index_named X.name name.now self.now }
        ensures row { IfSome result (λ r. slice_get self.now r.0 ≡ Some r.1.now) }
    {
        let index = self.place_of(name, near)?;
        Some((index, &self.rows.as_slice()[index]))
    }

    /// Whether some row has the name.
    #[tactic(auto, using(crate::proofs::NameIndex::named_at))]
    pub fn has(&self, name: &Name) -> bool
        ensures { result ≡ is_named X.name name.now self.now }
    {
        self.by_map(name).is_some()
    }

    /// These rows and one more behind them, whose name no other row has.
    pub fn with(self, row: X) -> Result<Self, AllocError>
        requires { is_named X.name (X.name row) self ≡ false }
        ensures { IfOk result (λ a. a ≡ self ++ row ∷ []) }
    {
        let NamedRows {
            mut rows,
            mut places,
        } = self;
        places.insert(row.own_name().key(), rows.len())?;
        rows.push(row)?;
        Ok(NamedRows { rows, places })
    }

    /// The place of the row with a name, from the map.
    fn by_map(&self, name: &Name) -> Option<usize>
        ensures { result ≡ index_named X.name name.now self.now }
    {
        self.places.get(&name.key()).copied()
    }

    /// How many rows there are.
    pub fn len(&self) -> usize
        ensures { result ≡ length self.now }
    {
        self.rows.len()
    }

    /// The rows alone.
    pub fn into_rows(self) -> Listed<X>
        ensures { result ≡ self }
    {
        let NamedRows { rows, places: _ } = self;
        rows
    }
}
