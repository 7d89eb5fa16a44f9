//! What a master finds by the data link registers, proved of the definitions that the contracts of this crate cite. Each function
//! does nothing; its contract is the law, which `specs/Laws.antt` spells out.

ghost use Rattle.ec_dl.specs.Laws.{PlainSlavesHideThem, OnlyTakenIsStored, WritesAreReadBack, StoredAreSix, OneStoredIsTaken, StatusHasLinks};

/// A slave that isn't full has none of these registers.
#[tactic(auto, unfolding(crate::specs::DataLink::dl_byte, crate::specs::DataLink::dl_takes, crate::specs::DataLink::dl_written))]
pub fn plain_slaves_hide_them()
    ensures { PlainSlavesHideThem }
{}

/// What isn't taken changes nothing.
#[tactic(auto, unfolding(crate::specs::DataLink::dl_written))]
pub fn only_taken_is_stored()
    ensures { OnlyTakenIsStored }
{}

/// After a datagram a register that keeps writes reads the datagram's byte, and every other what it read.
pub fn writes_are_read_back()
    ensures { WritesAreReadBack }
{}

/// Six bytes of registers keep writes.
pub fn stored_are_six()
    ensures { StoredAreSix }
{}

/// A datagram that reaches a register that keeps writes is taken.
pub fn one_stored_is_taken()
    ensures { OneStoredIsTaken }
{}

/// DL status shows the links of a slave.
#[tactic(auto, unfolding(crate::specs::DataLink::dl_byte))]
pub fn status_has_links()
    ensures { StatusHasLinks }
{}
