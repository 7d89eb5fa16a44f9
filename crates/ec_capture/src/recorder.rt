//! A capture that is being written.
ghost use Rattle.std.specs.Prelude.{◌≡◌, ◌∷◌, [], All, IfOk, false, length, map, option_map, true};
ghost use Rattle.std.specs.Io.KnownBytes.{Appends};
ghost use Rattle.ec_capture.specs.Captures.{IsComment, IsText, file_of, interface_block, packet_block, captured_as};
ghost use Rattle.ec_capture.specs.Blocks.{block_bytes, blocks_bytes};
ghost use Rattle.ec_capture.specs.Recordings.{Notes, Recording};
ghost use Rattle.ec_capture.specs.Writing.{AppendsPart, Writes};

use crate::blocks::{write_interface, write_packet, write_section};
use crate::file::CaptureFile;
use crate::packet::{MAX_INTERFACES, MAX_PAYLOAD, Packet};
use crate::writing::WriteFault;
use std::convert::AsStr;
use std::io::Write;
use std::marker::Model;

/// A capture that is being written. Each noted packet is written and handed on before the next one. If a write or a flush is refused,
/// the capture is cut short and notes no more packets. Nothing else follows from that.
#[derive(Drop)]
pub struct Recorder<W: Write + Drop> {
    file: CaptureFile<W>,
    interfaces: usize,
    is_whole: bool,
}

impl<W: Write + Drop> Model for Recorder<W> {
    ghost use Rattle.ec_capture.specs.Recordings.{Recording};
    ghost use Rattle.ec_capture.specs.Writing.{IsHandedOn};

    ghost Value = { Recording };

    ghost view = { λ r. record { file = r.file.holds; interfaces = r.interfaces; is_whole = r.is_whole } };

    ghost invariant = { λ r. IsHandedOn r.is_whole r.file };
}

impl<W: Write + Drop> Recorder<W> {
    /// Begins a capture in a file, with an interface for each name, in order. The first has number 0.
    ///
    /// # Errors
    ///
    /// `WriteFault` if a write or the flush was refused.
    #[tactic(auto, using(crate::proofs::AppendedBytes::appends_kept))]
    pub fn open<S: AsStr>(file: W, names: &[S]) -> Result<Recorder<W>, WriteFault>
        requires { All IsText (map S.text names.now) }
        ensures { IfOk result (λ r. (r.is_whole ≡ true) × (r.interfaces ≡ length names.now)
            × Appends (W.contents file) r.file (file_of (record { names = map S.text names.now; packets = [] }))) }
    {
        let mut file = CaptureFile::new(file);
        write_section(&mut file)?;
        write_interfaces(names, &mut file)?;
        if file.flush().is_err() {
            return Err(WriteFault);
        }
        Ok(Recorder {
            file,
            interfaces: names.len(),
            is_whole: true,
        })
    }

    /// Whether the capture is whole: all of it is written and handed on.
    pub fn is_whole(&self) -> bool
        ensures { result ≡ self.now.is_whole }
    {
        self.is_whole
    }

    /// The file of the capture.
    pub fn file(&self) -> &W
        ensures { W.contents result.now ≡ self.now.file }
    {
        self.file.file()
    }

    /// Writes a packet to the file and hands it on, unless the capture is cut short. A refused write or flush cuts it short. So does a
    /// packet at an interface that doesn't exist, and one with a payload of more than 1500 bytes.
    pub fn note(&mut self, packet: &Packet<'_>)
        requires { IsComment (option_map (λ t. t.now) packet.now.comment) }
        ensures { Notes (captured_as packet.now ∷ []) self.old self.new }
    {
        if self.is_whole && !write_through(packet, self.interfaces, &mut self.file) {
            self.is_whole = false;
        }
    }
}

/// Writes a packet as [`write_fitting`] does, and hands it on. Returns whether both were done.
#[tactic(auto, using(crate::proofs::AppendedBytes::appends_kept))]
fn write_through<W: Write + Drop>(
    packet: &Packet<'_>,
    interfaces: usize,
    file: &mut CaptureFile<W>,
) -> bool
    requires { IsComment (option_map (λ t. t.now) packet.now.comment) }
    ensures all { result ≡ true
        → Appends file.old.holds file.new.holds (block_bytes (packet_block (captured_as packet.now))) }
    ensures flushed { result ≡ true → file.new.is_flushed ≡ true }
    ensures part { result ≡ false
        → AppendsPart file.old.holds file.new.holds (block_bytes (packet_block (captured_as packet.now))) }
{
    write_fitting(packet, interfaces, file) && file.flush().is_ok()
}

/// Writes a packet, if its interface is one of `interfaces` and its payload has at most 1500 bytes. Returns whether it was
/// written.
#[tactic(auto, using(crate::proofs::AppendedBytes::no_part))]
fn write_fitting<W: Write>(packet: &Packet<'_>, interfaces: usize, file: &mut W) -> bool
    requires { IsComment (option_map (λ t. t.now) packet.now.comment) }
    ensures all { result ≡ true
        → Appends (W.contents file.old) (W.contents file.new) (block_bytes (packet_block (captured_as packet.now))) }
    ensures part { result ≡ false
        → AppendsPart (W.contents file.old) (W.contents file.new) (block_bytes (packet_block (captured_as packet.now))) }
{
    // the proof learns that the time has 64 bits where the code reads it
    let _time = packet.time;
    if packet.interface >= interfaces.min(MAX_INTERFACES) || packet.payload.len() > MAX_PAYLOAD {
        return false;
    }
    write_packet(packet, file).is_ok()
}

/// Writes the description of an interface for each name, in order.
fn write_interfaces<W: Write, S: AsStr>(names: &[S], file: &mut W) -> Result<(), WriteFault>
    requires { All IsText (map S.text names.now) }
    ensures { Writes (blocks_bytes (map interface_block (map S.text names.now))) (W.contents file.old) (W.contents file.new) result }
{
    for name in names {
        write_interface(name.as_str(), file)?;
    }
    Ok(())
}
