//! The form in which masters see slaves.
ghost use Rattle.std.specs.Prelude.{◌≡◌};
ghost use Rattle.ec_console.specs.Stating.{advertised_in, slave_form};

use ec_table::Table;

/// The form in which masters see the slaves of a segment.
#[derive(Clone, Copy, Debug, PartialEq, Eq, Drop)]
pub enum SlaveForm {
    /// As the link table states them.
    Plain,
    /// As usual masters expect them: with SII categories, DL status and more objects besides.
    Full,
}

impl SlaveForm {
    /// `Full` if the slaves are full, else `Plain`.
    pub fn of(full: bool) -> SlaveForm
        ensures { result ≡ slave_form full }
    {
        if full {
            SlaveForm::Full
        } else {
            SlaveForm::Plain
        }
    }
}

/// Shows the slaves of a table in a form.
pub(crate) fn advertise_in(table: &mut Table, form: SlaveForm)
    ensures { table.new ≡ advertised_in form table.old }
{
    match form {
        SlaveForm::Plain => {}
        SlaveForm::Full => table.advertise_full(),
    }
}
