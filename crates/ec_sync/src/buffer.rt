//! What a buffered manager holds.

ghost use Rattle.std.specs.Prelude.{◌≡◌, ◌+◌, ◌-◌, ◌<◌, ◌≤◌, ◌++◌, length, take, drop, slice_set, IfOk, Some, None, is_some, unwrap_or, option_map, true, ℕ, List};
ghost use Rattle.ec_bits.specs.Bits.{zeros};
ghost use Rattle.ec_regs.specs.Memory.{ram_end};
ghost use Rattle.ec_sync.specs.Buffer.{emptied_buffer, publishing, draft_next, app_written, app_read, after_read};

use crate::touching::Writing;
use std::alloc::{AllocError, Global};
use std::marker::Model;
use std::mem;

/// The longest value of a buffered manager in bytes: three of them fit into the RAM.
pub const MAX_BUFFER_LEN: usize = 2730;

/// The published value, a writer's draft and a reader's view, each in storage that every configuration fits.
#[derive(Drop)]
pub struct Buffer {
    len: usize,
    published: Vec<u8>,
    draft: Vec<u8>,
    is_drafting: bool,
    open_view: Vec<u8>,
    is_viewing: bool,
}

impl Model for Buffer {
    ghost use Rattle.std.specs.Prelude.{◌≡◌, ◌≤◌, length, take, Some, None, if◌then◌else◌};
    ghost use Rattle.ec_sync.specs.Buffer.{Buffer as Triple};

    ghost Value = { Triple };

    ghost view = { λ b. record {
      published = take b.len b.published.items;
      draft = if b.is_drafting then Some (take b.len b.draft.items) else None;
      view = if b.is_viewing then Some (take b.len b.open_view.items) else None;
    } };

    ghost invariant = { λ b.
        (length b.published.items ≡ 2730) × (length b.draft.items ≡ 2730)
        × (length b.open_view.items ≡ 2730) × (b.len ≤ 2730) };
}

impl Buffer {
    /// A buffer without a value.
    pub fn new(alloc: Global) -> Result<Buffer, AllocError>
        ensures { IfOk result (λ b. b ≡ emptied_buffer 0) }
    {
        Ok(Buffer {
            len: 0,
            published: vec![in alloc; 0; MAX_BUFFER_LEN]?,
            draft: vec![in alloc; 0; MAX_BUFFER_LEN]?,
            is_drafting: false,
            open_view: vec![in alloc; 0; MAX_BUFFER_LEN]?,
            is_viewing: false,
        })
    }

    /// Does nothing: an open draft and an open view are as long as what is published.
    pub fn is_sound(&self)
        ensures draft { (d : List ℕ) → self.now.draft ≡ Some d → length d ≡ length self.now.published }
        ensures view { (v : List ℕ) → self.now.view ≡ Some v → length v ≡ length self.now.published }
    {
        let _len = self.len;
    }

    /// The last value that was published.
    pub fn published(&self) -> &[u8]
        ensures value { result.now ≡ self.now.published }
        ensures small { length self.now.published ≤ 2730 }
    {
        &self.published[..self.len]
    }

    /// Publishes `len` zeros, and drops draft and view.
    pub fn empty(&mut self, len: usize)
        requires { len ≤ 2730 }
        ensures { self.new ≡ emptied_buffer len }
    {
        self.len = len;
        self.is_drafting = false;
        self.is_viewing = false;
        clear_front(&mut self.published, len);
    }

    /// Publishes zeros, and leaves draft and view.
    pub fn publish_zeros(&mut self)
        ensures { self.new ≡ publishing self.old (zeros (length self.old.published)) }
    {
        clear_front(&mut self.published, self.len);
    }

    /// Publishes what an access writes.
    pub fn publish<W: Writing>(&mut self, start: usize, len: usize, writing: &W)
        requires long { length self.old.published ≡ len }
        requires some { 0 < len }
        requires inside { start + len ≤ ram_end }
        requires first { W.touched writing.now start ≡ true }
        requires last { W.touched writing.now (start + len - 1) ≡ true }
        ensures after { self.new ≡ publishing self.old (W.written writing.now start len) }
        ensures long { length self.new.published ≡ length self.old.published }
    {
        fill_front(&mut self.published, len, start, writing);
    }

    /// The application writes a byte. Returns false and changes nothing if there is no open draft, or no such byte.
    #[tactic(auto, unfolding(crate::specs::Buffer::app_written))]
    pub fn put(&mut self, offset: usize, byte: u8) -> bool
        ensures granted { result ≡ is_some (app_written self.old offset byte) }
        ensures after { self.new ≡ unwrap_or (app_written self.old offset byte) self.old }
        ensures long { length self.new.published ≡ length self.old.published }
    {
        if offset >= self.len {
            return false;
        }
        if offset == 0 {
            self.open_draft();
        } else if !self.is_drafting {
            return false;
        }
        self.write_draft(offset, byte);
        true
    }

    /// The application writes all bytes, which publishes them and closes a draft.
    pub fn put_all(&mut self, value: &[u8])
        requires { length value.now ≡ length self.old.published }
        ensures { self.new ≡ record self.old { published = value.now; draft = None } }
    {
        copy_front(&mut self.published, value, self.len);
        self.is_drafting = false;
    }

    /// The application reads a byte. Returns none and changes nothing if there is no open view, or no such byte.
    #[tactic(auto, unfolding(crate::specs::Buffer::app_read))]
    pub fn get(&mut self, offset: usize) -> Option<u8>
        ensures byte { result ≡ option_map (λ got. got.byte) (app_read self.old offset) }
        ensures after { self.new ≡ after_read self.old (app_read self.old offset) }
        ensures long { length self.new.published ≡ length self.old.published }
    {
        if offset >= self.len {
            return None;
        }
        if offset == 0 {
            copy_front(&mut self.open_view, &self.published, self.len);
        } else if !self.is_viewing {
            return None;
        }
        self.is_viewing = offset + 1 != self.len;
        Some(self.open_view[offset])
    }

    /// The application reads all bytes, which closes a view.
    pub fn get_all(&mut self)
        ensures { self.new ≡ record self.old { view = None } }
    {
        self.is_viewing = false;
    }

    /// Writes a byte of the open draft, which the last one publishes.
    fn write_draft(&mut self, offset: usize, byte: u8)
        requires open { is_some self.old.draft ≡ true }
        requires inside { offset < length self.old.published }
        ensures after { Some self.new ≡ draft_next self.old offset byte self.old.draft }
        ensures long { length self.new.published ≡ length self.old.published }
    {
        set_byte(&mut self.draft, self.len, offset, byte);
        if offset + 1 == self.len {
            self.is_drafting = false;
            mem::swap(&mut self.published, &mut self.draft);
        }
    }

    /// Opens a draft of zeros.
    fn open_draft(&mut self)
        ensures { self.new ≡ record self.old { draft = Some (zeros (length self.old.published)) } }
    {
        self.is_drafting = true;
        clear_front(&mut self.draft, self.len);
    }
}

/// Writes zeros at the front.
pub fn clear_front(storage: &mut [u8], len: usize)
    requires { len ≤ length storage.old }
    ensures { storage.new ≡ zeros len ++ drop len storage.old }
{
    storage[..len].fill(0);
}

/// Writes at the front the value that an access leaves in so many bytes from an address on.
pub fn fill_front<W: Writing>(storage: &mut [u8], len: usize, start: usize, writing: &W)
    requires room { len ≤ length storage.old }
    requires some { 0 < len }
    requires inside { start + len ≤ ram_end }
    requires first { W.touched writing.now start ≡ true }
    requires last { W.touched writing.now (start + len - 1) ≡ true }
    ensures front { storage.new ≡ W.written writing.now start len ++ drop len storage.old }
    ensures length { length (W.written writing.now start len) ≡ len }
{
    writing.fill(start, &mut storage[..len]);
}

/// Copies the front.
fn copy_front(storage: &mut [u8], from: &[u8], len: usize)
    requires to { len ≤ length storage.old }
    requires from { len ≤ length from.now }
    ensures { storage.new ≡ take len from.now ++ drop len storage.old }
{
    storage[..len].copy_from_slice(&from[..len]);
}

/// Sets a byte at the front.
fn set_byte(storage: &mut [u8], len: usize, offset: usize, byte: u8)
    requires room { len ≤ length storage.old }
    requires inside { offset < len }
    ensures { take len storage.new ≡ slice_set (take len storage.old) offset byte }
{
    storage[offset] = byte;
}
