//! Why a line can't be done or has failed: in words, with names of the table.
use crate::mastered::view_of;
use ec_console::{Misfit, Missed, Refusal};
use ec_diagnostic::Printable;
use ec_explain_start::StartFault;
use ec_script::{Expectation, LineAction, LineOutput, Step};
use ec_session::{AlStatus, Session};
use ec_start::StartError;
use ec_table::Direction;
use ec_text::value_of;
use ec_wire::Trouble;
use std::fmt;

/// What came of a step of a line: the session that it left, its output, why the last call of the wire that was a fault was one, `None` if
/// none was, and what the slave said whose AL state was expected last. If the step can't be done, has failed or isn't met, this prints why,
/// else nothing.
#[derive(Clone, Copy)]
pub(crate) struct Why<'s> {
    pub session: &'s Session,
    pub step: Step,
    pub output: LineOutput,
    pub trouble: Option<Trouble>,
    pub told: Option<AlStatus>,
}

impl Why<'_> {
    /// Writes why a variable isn't set.
    fn write_unset<W: fmt::Write>(
        &self,
        f: &mut fmt::Formatter<W>,
        variable: usize,
    ) -> fmt::Result {
        let table = self.session.table();
        match table.variables().get(variable) {
            Some(row) if row.direction == Direction::In => {
                let name = Printable(row.name.as_str());
                write!(f, "`{name}` comes from slaves: the master doesn't set it")
            }
            _ => f.write(Misfit { table, variable }),
        }
    }

    /// Writes why no cycle is run.
    fn write_no_cycle<W: fmt::Write>(&self, f: &mut fmt::Formatter<W>) -> fmt::Result {
        match self.session.outcome() {
            None => f.write_str("there was no start-up: `ready` brings the slaves up"),
            Some(Ok(())) => f.write_str("there is no number left for its frames"),
            Some(Err(error)) => {
                let failed = Failed::new(self.session, error);
                write!(
                    f,
                    "the last start-up failed, {failed}; `ready` makes one more"
                )
            }
        }
    }

    /// Writes why an action can't be done.
    fn write_undone<W: fmt::Write>(&self, f: &mut fmt::Formatter<W>) -> fmt::Result {
        match self.step.action {
            LineAction::Cycle | LineAction::Stop => self.write_no_cycle(f),
            LineAction::Set(variable, _) | LineAction::Never(variable) => {
                self.write_unset(f, variable)
            }
            LineAction::Report => f.write_str("no cycle has ended with a report yet"),
            _ => Ok(()),
        }
    }

    /// Writes why what the step expects isn't so.
    fn write_unmet<W: fmt::Write>(&self, f: &mut fmt::Formatter<W>) -> fmt::Result {
        match self.step.action {
            _ if self.step.expects_no => f.write_str("the line was done, expected `no`"),
            LineAction::Expect(expected) => self.write_missed(f, expected),
            LineAction::Within(_, expected) => {
                self.write_missed(f, expected)?;
                match self.session.outcome() {
                    Some(Ok(())) => Ok(()),
                    _ => {
                        f.write_str("; no cycle is run: ")?;
                        self.write_no_cycle(f)
                    }
                }
            }
            _ => Ok(()),
        }
    }

    /// Writes what was and what was expected.
    fn write_missed<W: fmt::Write>(
        &self,
        f: &mut fmt::Formatter<W>,
        expected: Expectation,
    ) -> fmt::Result {
        let view = view_of(self.session);
        let value = match expected {
            Expectation::Is(variable, _)
            | Expectation::Holds(variable, _)
            | Expectation::Never(variable) => Some(value_of(self.session.master(), variable)),
            _ => None,
        };
        f.write(Missed {
            table: self.session.table(),
            view: &view,
            expected,
            value,
            status: self.told,
        })
    }

    /// Writes what the last start-up failed by, and nothing if it hasn't failed. If it was lost, that may be by a fault of the wire.
    fn write_failed<W: fmt::Write>(&self, f: &mut fmt::Formatter<W>) -> fmt::Result {
        let Some(Err(error)) = self.session.outcome() else {
            return Ok(());
        };
        f.write(Failed::new(self.session, error))?;
        if matches!(error, StartError::Lost) && self.trouble.is_some() {
            f.write_str("; ")?;
            self.write_fault(f)?;
        }
        Ok(())
    }

    /// Writes why the wire had a fault, and nothing if it had none.
    fn write_fault<W: fmt::Write>(&self, f: &mut fmt::Formatter<W>) -> fmt::Result {
        match self.trouble {
            Some(trouble) => write!(f, "a call on the socket failed: {trouble}"),
            None => Ok(()),
        }
    }
}

impl fmt::Display for Why<'_> {
    fn fmt<W: fmt::Write>(&self, f: &mut fmt::Formatter<W>) -> fmt::Result {
        match self.output {
            LineOutput::No => self.write_undone(f),
            LineOutput::Unmet => self.write_unmet(f),
            LineOutput::Ended => self.write_failed(f),
            LineOutput::Fault => self.write_fault(f),
            _ => Ok(()),
        }
    }
}

/// What a start-up failed by. It is printed as its refusal, in the form of other commands, and a sentence that explains it.
#[derive(Clone, Copy)]
struct Failed<'t> {
    refusal: Refusal,
    fault: StartFault<'t>,
}

impl<'t> Failed<'t> {
    fn new(session: &'t Session, error: StartError) -> Failed<'t> {
        Failed {
            refusal: Refusal::Start(error),
            fault: StartFault::of_startup(
                session.table(),
                session.plan(),
                session.startup(),
                error,
            ),
        }
    }
}

impl fmt::Display for Failed<'_> {
    fn fmt<W: fmt::Write>(&self, f: &mut fmt::Formatter<W>) -> fmt::Result {
        let Failed { refusal, fault } = self;
        write!(f, "{refusal}: {fault}")
    }
}
