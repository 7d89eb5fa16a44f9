//! Laws of the definitions. Each function does nothing: its contract is the law.
ghost use Rattle.ec_capture.specs.Laws.{CapturesGrow, CapturesReadBack};

/// Reading back the file of a capture gives its interfaces, and its packets in order.
#[tactic(auto, using(crate::proofs::ReadBack::captures_read_back))]
pub fn captures_read_back()
    ensures { CapturesReadBack }
{}

/// The file of a capture with one packet more is its file with the packet's block behind it.
#[tactic(auto, using(crate::proofs::Growth::captures_grow))]
pub fn captures_grow()
    ensures { CapturesGrow }
{}
