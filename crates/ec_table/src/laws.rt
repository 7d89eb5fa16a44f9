//! What the definition of a link table's reading keeps, in the format's own words. Nothing runs here.

ghost use Rattle.ec_table.specs.Laws.{AcceptedIsSound, FaultsHaveTheirPosition, AcceptedElementByElement, DocumentFaultsInOrder, FirstFaultIsReturned, LeftOutIsDefault, WrittenIsRead, ObjectBitsAreCounted, EntriesAreAssigned, EntriesAreFew, DownloadsFitTheType};

/// What is accepted has unique names, known references, values in range, and assigned objects of its type
/// without a double.
pub fn accepted_is_sound()
    ensures { AcceptedIsSound }
{}

/// A document whose every element passes its own tests is accepted.
#[tactic(auto, using(crate::proofs::ElementByElement::accepted))]
pub fn accepted_element_by_element()
    ensures { AcceptedElementByElement }
{}

/// Which faults of a document come before those of its elements, and in which order.
#[tactic(auto, using(crate::proofs::DocumentFaults::document_faults))]
pub fn document_faults_in_order()
    ensures { DocumentFaultsInOrder }
{}

/// What an accepted element or document leaves out has its default.
#[tactic(auto, using(crate::proofs::Defaults::defaults))]
pub fn left_out_is_default()
    ensures { LeftOutIsDefault }
{}

/// The fault of a table is that of the first element, in order, that fails a test.
#[tactic(auto, using(crate::proofs::ElementByElement::first_told))]
pub fn first_fault_is_returned()
    ensures { FirstFaultIsReturned }
{}

/// A fault of an element carries its section and its place.
#[tactic(auto, using(crate::proofs::FaultPositions::placed))]
pub fn faults_have_their_position()
    ensures { FaultsHaveTheirPosition }
{}

/// Each sound table is what some document states: its own, with each key written out.
#[tactic(auto, using(crate::proofs::WrittenWhole::document_reads))]
pub fn written_is_read()
    ensures { WrittenIsRead }
{}

/// A direction of a slave has as many object bits as its entries have bits, gaps with them.
#[tactic(auto, using(crate::proofs::ObjectLemmas::object_bits_counted))]
pub fn object_bits_are_counted()
    ensures { ObjectBitsAreCounted }
{}

/// A slave's entries are those of its type's PDOs that it assigns, one after another.
#[tactic(auto, using(crate::proofs::ObjectLemmas::entries_are_assigned))]
pub fn entries_are_assigned()
    ensures { EntriesAreAssigned }
{}

/// A direction of a slave of a table has at most 65536 bits, gaps with them.
#[tactic(auto, using(crate::proofs::ObjectLemmas::entries_are_few))]
pub fn entries_are_few()
    ensures { EntriesAreFew }
{}

/// The downloads to a slave are within the limits of a type, and without hardware there are none.
#[tactic(auto, using(crate::proofs::InitJoined::downloads_fit))]
pub fn downloads_fit_the_type()
    ensures { DownloadsFitTheType }
{}
