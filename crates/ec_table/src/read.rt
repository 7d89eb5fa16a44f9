//! Reads a table from its text.
ghost use Rattle.std.specs.Prelude.{◌≡◌, List, ℕ, false, option_map};
ghost use Rattle.std.specs.Cmp.Lexicographic.{slice_cmp};
ghost use Rattle.std.specs.Ordering.{is_eq, nat_cmp};
ghost use Rattle.toml.specs.Data.{get_member};
ghost use Rattle.toml.specs.View.{items_view, table_view, view};
ghost use Rattle.ec_table.specs.InOrder.{Gives};
ghost use Rattle.ec_table.specs.Reading.{table_of_document, table_of_sections, table_of};

use crate::fault::{Fault, Position, Section, TableError};
use crate::fields::{elements_in, format_in, member, section_in};
use crate::keys::Shape;
use crate::links::links_of;
use crate::rows::Format;
use crate::slaves::slaves_of;
use crate::table::Table;
use crate::types::types_of;
use crate::values::values_of;
use crate::variables::variables_of;
use std::alloc::Global;
use toml::Value;

/// The table that a text states, or the first fault of the text.
///
/// # Errors
///
/// The first fault of the text as `TableError::Refused`, in the order of `docs/TABLES.md`, "Refusals", or `TableError::Memory`
/// if memory ran out.
#[tactic(auto, unfolding(crate::specs::Reading::table_of))]
pub fn read_table(alloc: Global, text: &str) -> Result<Table, TableError>
    ensures { Gives result (table_of text.now) }
{
    match toml::table_from_str(alloc, text) {
        Ok(mut document) => table_of_document(alloc, &mut document),
        Err(error) if error.is_memory() => Err(TableError::Memory),
        Err(_) => Err(TableError::Refused(Fault::Toml)),
    }
}

/// The table that a document states. It takes the variables and links out, so that each is freed once it is read.
#[tactic(auto, unfolding(crate::specs::Reading::table_of_document))]
fn table_of_document(alloc: Global, document: &mut toml::Table) -> Result<Table, TableError>
    ensures { Gives result (table_of_document (table_view document.old)) }
{
    let top = Position {
        section: Section::Top,
        element: 0,
    };
    let format = format_in(
        top,
        member(document, "version"),
        member(document, "hardware"),
    )?;
    if values_of(Shape::Document, format, document).is_none() {
        return Err(TableError::Refused(Fault::BadKey(top)));
    }
    let variables = take_member(document, "variable");
    let links = take_member(document, "link");
    let types = section_in(top, member(document, "type"))?;
    let slaves = section_in(top, member(document, "slave"))?;
    let variables = elements_in(alloc, top, variables)?;
    let links = elements_in(alloc, top, links)?;
    table_of_sections(alloc, format, types, slaves, variables, links)
}

/// Takes out the value under a key; the values under other keys stay.
fn take_member(document: &mut toml::Table, key: &str) -> Option<Value>
    ensures value { option_map view result ≡ get_member key.now (table_view document.old) }
    ensures others { (other : List ℕ) → is_eq (slice_cmp nat_cmp other key.now) ≡ false
        → get_member other (table_view document.new) ≡ get_member other (table_view document.old) }
{
    document.remove(key)
}

/// The table that the elements of the sections state.
#[tactic(auto, unfolding(crate::specs::Reading::table_of_sections))]
fn table_of_sections(
    alloc: Global,
    format: Format,
    types: &[Value],
    slaves: &[Value],
    variables: Vec<Value>,
    links: Vec<Value>,
) -> Result<Table, TableError>
    ensures { Gives result (table_of_sections format (items_view types.now)
        (items_view slaves.now) (items_view variables.items) (items_view links.items)) }
{
    let types = types_of(alloc, format, types)?;
    let slaves = slaves_of(alloc, format, &types, slaves)?;
    let variables = variables_of(alloc, format, variables)?;
    let links = links_of(alloc, format, &slaves, &variables, links)?;
    Ok(Table::new(
        format,
        types.into_rows(),
        slaves.into_rows(),
        variables.into_rows(),
        links,
    ))
}
