//! What the handle of a master owns: a session, and what a program in C asks of it beside.
ghost use Rattle.std.specs.Prelude.{◌≡◌};
ghost use Rattle.ec_handles.specs.Holding.{IsUnasked, failure_of};

use crate::polling::Polling;
use crate::statuses::Statuses;
use ec_session::Session;
use ec_start::StartError;

/// A session, whether its start-up polls, and the AL states that were asked for.
#[derive(Drop)]
pub struct HeldMaster {
    pub session: Session,
    pub polling: Polling,
    pub statuses: Statuses,
}

impl HeldMaster {
    /// The master of a session; nothing was asked of it.
    pub fn new(session: Session) -> HeldMaster
        ensures session { result.session ≡ session }
        ensures unasked { IsUnasked result }
    {
        HeldMaster {
            session,
            polling: Polling::new(),
            statuses: Statuses::new(),
        }
    }

    /// What the last start-up failed by; none if it didn't fail.
    pub fn failure(&self) -> Option<StartError>
        ensures { result ≡ failure_of self.now }
    {
        match self.session.outcome() {
            Some(Err(error)) => Some(error),
            Some(Ok(())) | None => None,
        }
    }
}
