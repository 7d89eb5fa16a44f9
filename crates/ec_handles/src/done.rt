//! What a call returns to C.
ghost use Rattle.std.specs.Prelude.{◌≡◌};
ghost use Rattle.ec_handles.specs.Calling.{AreCopied, counted, refused};

/// The result of a call. `number` is that of a refusal, or 0; `is_done` says that the call did what it is for. `count` is in
/// bytes or parts, or the number of a variable.
#[repr(C)]
#[derive(Clone, Copy, Drop)]
pub struct Done {
    pub number: u8,
    pub is_done: bool,
    pub count: usize,
}

/// What a closed cycle's report says: whether all sync units were taken, the AL word, and how many parts are missing. `number` is that
/// of the refusal if no cycle was open, and else 0.
#[repr(C)]
#[derive(Clone, Copy, Drop)]
pub struct Closed {
    pub number: u8,
    pub is_taken: bool,
    pub al: u16,
    pub missing: usize,
}

/// The value of a variable, if it is there, and else 0.
#[repr(C)]
#[derive(Clone, Copy, Drop)]
pub struct VariableValue {
    pub is_there: bool,
    pub value: u64,
}

/// The result of a call that is refused with this number.
pub fn refused(number: u8) -> Done
    ensures { result ≡ refused number }
{
    Done {
        number,
        is_done: false,
        count: 0,
    }
}

/// The result of a call that isn't refused, with a count.
pub fn counted(is_done: bool, count: usize) -> Done
    ensures { result ≡ counted is_done count }
{
    Done {
        number: 0,
        is_done,
        count,
    }
}

/// Writes bytes into a room if they fit; the count is how many they are.
pub fn copy_into(bytes: &[u8], room: &mut [u8]) -> Done
    ensures { AreCopied bytes.now room.old result room.new }
{
    let count = bytes.len();
    if count > room.len() {
        return counted(false, count);
    }
    room[..count].copy_from_slice(bytes);
    counted(true, count)
}
