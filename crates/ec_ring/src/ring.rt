//! Slaves in a row, and a frame past all of them.
ghost use Rattle.std.specs.Prelude.{◌≡◌, ◌==◌, ◌<◌, ◌↔◌, ℕ, List, length, slice_get, Some};
ghost use Rattle.std.specs.Prelude.{IsErr, OnErr};
ghost use Rattle.std.specs.Borrow.{sem};
ghost use Rattle.ec_frame.specs.Frame.{Payload, IsFrame};
ghost use Rattle.ec_slave.specs.Column.{datagram_past, slaves_met};
ghost use Rattle.ec_slave.proofs.Commands.CommandLaws.{datagrams_stay_past};
ghost use Rattle.ec_slave.specs.Sound.{IsSlave};
ghost use Rattle.ec_slave.specs.State.{SlaveState};
ghost use Rattle.ec_ring.specs.Lending.{LendsSlave};
ghost use Rattle.ec_ring.specs.Rings.{IsNoFrame, IsPassedAt, HasPassedRing};

use crate::error::NotAFrame;
use ec_frame::{Handler, check, pass};
use ec_slave::{Slave, pass_each};
use std::marker::Model;

/// Slaves in the order in which a frame passes them.
#[derive(Drop)]
pub struct Ring {
    slaves: Vec<Slave>,
}

impl Model for Ring {
    ghost use Rattle.std.specs.Prelude.{List};
    ghost use Rattle.ec_slave.specs.State.{SlaveState};

    ghost Value = { List SlaveState };

    ghost view = { λ r. r.slaves.items };
}

impl Ring {
    /// The ring of these slaves, the first of which a frame passes first.
    pub fn new(slaves: Vec<Slave>) -> Ring
        ensures { result ≡ slaves.items }
    {
        Ring { slaves }
    }

    /// How many slaves there are.
    pub fn len(&self) -> usize
        ensures { result ≡ length self.now }
    {
        self.slaves.len()
    }

    /// Whether there is no slave.
    pub fn is_empty(&self) -> bool
        ensures { result ≡ (length self.now == 0) }
    {
        self.slaves.is_empty()
    }

    /// The slave at an index, the first at 0.
    pub fn slave(&self, index: usize) -> &Slave
        requires { index < length self.now }
        ensures { slice_get self.now index ≡ Some result.now }
    {
        &self.slaves[index]
    }

    /// Lends the slave at an index; the others stay as they are.
    pub fn slave_mut(&mut self, index: usize) -> &mut Slave
        requires { index < length self.old }
        ensures* writes_back { sem 𝓛 (LendsSlave self.entry index result) }
        ensures value { slice_get self.old index ≡ Some result.now }
    {
        &mut self.slaves[index]
    }

    /// Does nothing. Its contract says what holds of every slave of a ring, whatever passed it.
    pub fn is_sound(&self)
        ensures { (index : ℕ) (s : SlaveState) → slice_get self.now index ≡ Some s → IsSlave s }
    {
        show_slaves(&self.slaves)
    }

    /// A frame passes the slave at an index, and no other. What `check` refuses is `NotAFrame`, and
    /// leaves payload and slaves as they are.
    pub fn pass_one(&mut self, frame: &mut [u8], index: usize) -> Result<(), NotAFrame>
        requires { index < length self.old }
        ensures refused { IsErr result ↔ IsNoFrame frame.old }
        ensures slaves_unchanged { OnErr result (self.new ≡ self.old) }
        ensures frame_unchanged { OnErr result (frame.new ≡ frame.old) }
        ensures count { length self.new ≡ length self.old }
        ensures meets { (s : SlaveState) → slice_get self.old index ≡ Some s
            → IsPassedAt self.old index s frame.old self.new frame.new }
    {
        if check(frame).is_err() {
            return Err(NotAFrame);
        }
        self.slaves[index].pass(frame);
        Ok(())
    }

    /// A frame passes all slaves, one after the other. What `check` refuses is `NotAFrame`, and
    /// leaves payload and slaves as they are.
    pub fn pass_all(&mut self, frame: &mut [u8]) -> Result<(), NotAFrame>
        ensures refused { IsErr result ↔ IsNoFrame frame.old }
        ensures slaves_unchanged { OnErr result (self.new ≡ self.old) }
        ensures frame_unchanged { OnErr result (frame.new ≡ frame.old) }
        ensures count { length self.new ≡ length self.old }
        ensures ring { HasPassedRing self.old frame.old self.new frame.new }
    {
        if check(frame).is_err() {
            return Err(NotAFrame);
        }
        self.pass_frame(frame);
        Ok(())
    }

    /// What is known to be a frame passes all slaves, as by `pass_all`, and is not tested again.
    pub fn pass_frame(&mut self, frame: &mut [u8])
        requires { (p : Payload) × IsFrame frame.old p }
        ensures count { length self.new ≡ length self.old }
        ensures ring { HasPassedRing self.old frame.old self.new frame.new }
    {
        pass(self, frame);
    }
}

/// A datagram passes all slaves, one after the other, before the next one does: slaves and datagrams meet in the cells of
/// a grid, and by columns it ends as by rows.
impl Handler for Ring {
    ghost handled = { datagram_past };

    ghost after = { slaves_met };

    ghost keeps_length = { datagrams_stay_past };

    fn handle(&mut self, part: &mut [u8]) {
        pass_each(&mut self.slaves, part);
    }
}

/// Shows what holds of each slave.
fn show_slaves(slaves: &[Slave])
    ensures { (index : ℕ) (s : SlaveState) → slice_get slaves.now index ≡ Some s → IsSlave s }
{
    for k in 0..slaves.len() {
        slaves[k].is_sound();
    }
}
