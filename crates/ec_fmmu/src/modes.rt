//! How datagrams go through each FMMU of a slave, found once for all of them.

ghost use Rattle.std.specs.Prelude.{◌≡◌, ◌<◌, ◌≤◌, length};
ghost use Rattle.std.specs.Bool.{OnTrue};
ghost use Rattle.ec_fmmu.specs.Alone.{IsAlone, IsAloneWriting};
ghost use Rattle.ec_fmmu.specs.Modes.{AreClosedFrom, AreReadModes, AreWriteModes, IsReadMode, IsWriteMode, is_closed as is_closed_mode, is_shared as is_shared_mode};

use crate::mapping::Fmmu;
use crate::run::Run;

/// How the datagrams of a direction go through an FMMU.
#[derive(Clone, Copy)]
pub(crate) enum Mode {
    /// Not at all: it doesn't go in that direction.
    Closed,
    /// By these pairs: the range of no other FMMU of the direction meets its range.
    Alone(Run),
    /// Bit by bit: ranges meet, so each bit has to find the FMMU that decides.
    Shared,
}

impl Mode {
    /// Whether ranges meet.
    pub(crate) fn is_shared(&self) -> bool
        ensures { result ≡ is_shared_mode self.now }
    {
        match self {
            Mode::Closed | Mode::Alone(_) => false,
            Mode::Shared => true,
        }
    }

    /// Whether it is closed.
    fn is_closed(&self) -> bool
        ensures { result ≡ is_closed_mode self.now }
    {
        match self {
            Mode::Closed => true,
            Mode::Alone(_) | Mode::Shared => false,
        }
    }
}

/// How reads go through each of four FMMUs.
pub(crate) fn read_modes(fmmus: &[Fmmu; 4]) -> [Mode; 4]
    ensures { AreReadModes fmmus.now result }
{
    [
        read_mode(fmmus, 0),
        read_mode(fmmus, 1),
        read_mode(fmmus, 2),
        read_mode(fmmus, 3),
    ]
}

/// How writes go through each of four FMMUs.
pub(crate) fn write_modes(fmmus: &[Fmmu; 4]) -> [Mode; 4]
    ensures { AreWriteModes fmmus.now result }
{
    [
        write_mode(fmmus, 0),
        write_mode(fmmus, 1),
        write_mode(fmmus, 2),
        write_mode(fmmus, 3),
    ]
}

/// The index behind the last of four modes that is open.
pub(crate) fn end_of_open(modes: &[Mode; 4]) -> usize
    ensures inside { result ≤ 4 }
    ensures closed { AreClosedFrom result modes.now }
{
    let mut end = 0;
    for k in 0..4 {
        if !modes[k].is_closed() {
            end = k + 1;
        }
    }
    end
}

/// How writes go through the FMMU at an index.
fn write_mode(fmmus: &[Fmmu], index: usize) -> Mode
    requires { index < length fmmus.now }
    ensures { IsWriteMode fmmus.now index result }
{
    let fmmu = &fmmus[index];
    if !fmmu.writes() {
        return Mode::Closed;
    }
    if is_alone_writing(fmmus, index) {
        Mode::Alone(fmmu.run())
    } else {
        Mode::Shared
    }
}

/// How reads go through the FMMU at an index.
fn read_mode(fmmus: &[Fmmu], index: usize) -> Mode
    requires { index < length fmmus.now }
    ensures { IsReadMode fmmus.now index result }
{
    let fmmu = &fmmus[index];
    if !fmmu.reads() {
        return Mode::Closed;
    }
    if is_alone(fmmus, index) {
        Mode::Alone(fmmu.run())
    } else {
        Mode::Shared
    }
}

/// Whether no other FMMU writes to a logical or a physical bit of the range of the one at an index.
fn is_alone_writing(fmmus: &[Fmmu], index: usize) -> bool
    requires { index < length fmmus.now }
    ensures { OnTrue result (IsAloneWriting fmmus.now index) }
{
    for k in 0..fmmus.len() {
        if k != index
            && fmmus[k].writes()
            && !(fmmus[k].is_apart_from(&fmmus[index])
                && fmmus[k].is_physically_apart_from(&fmmus[index]))
        {
            return false;
        }
    }
    true
}

/// Whether no other FMMU reads to a bit of the range of the one at an index.
fn is_alone(fmmus: &[Fmmu], index: usize) -> bool
    requires { index < length fmmus.now }
    ensures { OnTrue result (IsAlone fmmus.now index) }
{
    for k in 0..fmmus.len() {
        if k != index && fmmus[k].reads() && !fmmus[k].is_apart_from(&fmmus[index]) {
            return false;
        }
    }
    true
}
