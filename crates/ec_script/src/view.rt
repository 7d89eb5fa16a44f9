//! What lines can print and expect of a master, simulated or over a wire.
use ec_cycle::{Master, Report};
use ec_start::StartError;
use std::marker::Model;

/// What lines can print and expect of a master.
#[derive(Drop)]
pub struct MasterView<'a, 'p> {
    /// How the last start-up ended; none while it runs.
    pub outcome: Option<Result<(), StartError>>,
    /// The report on the last cycle that had one.
    pub report: Option<&'a Report>,
    pub master: &'a Master<'p>,
    /// The byte that the application of a slave read last; none over a wire.
    pub byte: Option<u8>,
}

impl<'a, 'p> Model for MasterView<'a, 'p> {
    ghost use Rattle.std.specs.Prelude.{option_map};
    ghost use Rattle.ec_script.specs.Views.{ViewState};

    ghost Value = { ViewState };

    ghost view = { λ v. record {
      outcome = v.outcome;
      report = option_map (λ r. r.now) v.report;
      master = v.master.now;
      byte = v.byte;
    } };
}
