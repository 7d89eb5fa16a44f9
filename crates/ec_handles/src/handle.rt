//! The handles of masters and segments that C holds: structs of one pointer, each with a ghost field for what it owns.
ghost use Rattle.std.specs.Prelude.{◌≡◌, List, Option, Some, true, is_some};
ghost use Rattle.ec_slave.specs.State.{SlaveState};
ghost use Rattle.ec_handles.specs.Keeping.{keeps};
ghost use Rattle.ec_handles.specs.Owning.{owns_master, owns_slaves};
ghost use Rattle.ec_handles.specs.declared.held.HeldMaster.{HeldMaster};

use crate::held::HeldMaster;
use ec_ring::Ring;
use std::alloc::Global;
use std::marker::Model;

/// The pointer that was a box, and still owns the value behind it.
pub struct RawBox<T> {
    pub at: *mut T,
    pub ghost value: { T },
}

impl<T> Model for RawBox<T> {
    ghost also_owns = { λ k. keeps T.row k.at k.value };
}

impl<T> RawBox<T> {
    /// Takes a box apart into its pointer. Nothing is freed.
    pub fn of(boxed: Box<T>) -> RawBox<T>
    where
        T: Drop,
        ensures { result.value ≡ boxed.value }
    {
        let at = Box::into_raw(boxed);
        RawBox { at }
    }

    /// The box of the pointer again.
    pub fn into_box(self, alloc: Global) -> Box<T>
        ensures { result.value ≡ self.value }
    {
        let RawBox { at } = self;
        // SAFETY: `at` came from `Box::into_raw`. A `RawBox` is moved and never copied, so its box is made again only once.
        unsafe { Box::from_raw(alloc, at) }
    }
}

/// The target of a handle's pointer; C doesn't read it.
#[repr(C)]
#[derive(Drop)]
pub struct Hidden {
    nothing: u8,
}

/// The handle of a master: it owns one, or nothing.
#[repr(C)]
#[derive(Drop)]
pub struct MasterHandle {
    at: *mut Hidden,
    pub ghost held: { Option HeldMaster },
}

impl Model for MasterHandle {
    ghost also_owns = { λ h. owns_master h.at h.held };
}

/// The handle of a segment: it owns slaves, or nothing.
#[repr(C)]
#[derive(Drop)]
pub struct SegmentHandle {
    at: *mut Hidden,
    pub ghost slaves: { Option (List SlaveState) },
}

impl Model for SegmentHandle {
    ghost also_owns = { λ h. owns_slaves h.at h.slaves };
}

/// The handle that owns a master.
pub fn conceal_master(raw: RawBox<HeldMaster>) -> MasterHandle
    ensures { result.held ≡ Some raw.value }
{
    let RawBox { at } = raw;
    MasterHandle {
        at: at as *mut Hidden,
    }
}

/// The master that a handle owns.
pub fn reveal_master(handle: MasterHandle) -> RawBox<HeldMaster>
    requires { is_some handle.held ≡ true }
    ensures { Some result.value ≡ handle.held }
{
    let MasterHandle { at } = handle;
    RawBox {
        at: at as *mut HeldMaster,
    }
}

/// The handle that owns the slaves of a segment.
pub fn conceal_segment(raw: RawBox<Ring>) -> SegmentHandle
    ensures { result.slaves ≡ Some raw.value }
{
    let RawBox { at } = raw;
    SegmentHandle {
        at: at as *mut Hidden,
    }
}

/// The slaves that a handle owns.
pub fn reveal_segment(handle: SegmentHandle) -> RawBox<Ring>
    requires { is_some handle.slaves ≡ true }
    ensures { Some result.value ≡ handle.slaves }
{
    let SegmentHandle { at } = handle;
    RawBox {
        at: at as *mut Ring,
    }
}
