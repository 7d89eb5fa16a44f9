//! Finds whether what is read may be written as well.

ghost use Rattle.std.specs.Bool.{OnTrue};
ghost use Rattle.ec_fmmu.specs.Alone.{IsUnwritten};
ghost use Rattle.ec_fmmu.specs.Apart.{AreApart};

use crate::mapping::Fmmu;

/// Whether no physical bit is in the range of an FMMU that reads and of one that writes. Then a
/// datagram doesn't write what it reads, and may write first. False says nothing.
#[tactic(auto, using(crate::proofs::ApartLaws::unwritten_apart))]
pub fn are_apart(fmmus: &[Fmmu]) -> bool
    ensures { OnTrue result (AreApart fmmus.now) }
{
    for k in 0..fmmus.len() {
        if fmmus[k].reads() && !is_unwritten(fmmus, &fmmus[k]) {
            return false;
        }
    }
    true
}

/// Whether no FMMU that writes has a physical bit of the range of `reader`. False says nothing.
fn is_unwritten(fmmus: &[Fmmu], reader: &Fmmu) -> bool
    ensures { OnTrue result (IsUnwritten fmmus.now reader.now) }
{
    for k in 0..fmmus.len() {
        if fmmus[k].writes() && !fmmus[k].is_physically_apart_from(reader) {
            return false;
        }
    }
    true
}
