//! Laws of the definitions, over every run of a manager. Each function does nothing: its contract is the law.

ghost use Rattle.ec_sync.specs.Runs.{OnlyWholeValues, BytesOfTheView, ViewsStay, DraftsAreTheBytesPut, NewestIsVisible, RegistersReadBack, CallsAreSteps};
ghost use Rattle.ec_sync.specs.Messages.{MessagesAreGivenOnce};

/// No reader ever gets a value that was not published as a whole, in whatever order the ring, the application and the
/// firmware act, and each byte that the application gets is one of such a value.
#[tactic(auto, using(crate::proofs::WholeValues::whole_values, crate::proofs::WholeValues::view_bytes))]
pub fn only_whole_values()
    ensures whole { OnlyWholeValues }
    ensures bytes { BytesOfTheView }
{}

/// All bytes of a view are those of one value: the one that was published as byte 0 was read.
#[tactic(auto, using(crate::proofs::ViewsStay::views_stay))]
pub fn views_stay()
    ensures { ViewsStay }
{}

/// A value that the application publishes has the bytes that it put since byte 0, and zeros elsewhere.
#[tactic(auto, using(crate::proofs::ViewsStay::drafts_are_the_bytes_put))]
pub fn drafts_are_the_bytes_put()
    ensures { DraftsAreTheBytesPut }
{}

/// What a buffered manager shows is the value that was published last.
#[tactic(auto, using(crate::proofs::Newest::newest_is_visible))]
pub fn newest_is_visible()
    ensures { NewestIsVisible }
{}

/// A mailbox gives each message once, in the order in which they were put, and loses none but by an emptying or a
/// configuration.
#[tactic(auto, using(crate::proofs::Messages::messages_law))]
pub fn messages_are_given_once()
    ensures { MessagesAreGivenOnce }
{}

/// The contract of each call says that the manager goes by the step of that name in a run.
#[tactic(auto, using(crate::proofs::Registers::calls_law))]
pub fn calls_are_steps()
    ensures { CallsAreSteps }
{}

/// A manager's registers read back as they were set, and are the bytes of its settings.
#[tactic(auto, using(crate::proofs::Registers::registers_law))]
pub fn registers_read_back()
    ensures { RegistersReadBack }
{}
