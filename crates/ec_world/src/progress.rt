//! How far a frame is on its way.
ghost use Rattle.std.specs.Prelude.{◌≡◌};
ghost use Rattle.ec_world.specs.Plain.{is_older};
ghost use Rattle.ec_world.specs.Slots.{clearance_behind};

/// How far a frame is on its way. Of two frames the older one has the lower number, or the lower part of the same number.
#[derive(Clone, Copy, Debug, PartialEq, Eq)]
pub struct Progress {
    /// The number of its cycle, or of the frame of a start-up.
    pub number: u64,
    /// The part of the cycle that it carries; 0 for a frame of a start-up.
    pub part: usize,
    /// How many slaves it has passed.
    pub passed: usize,
}

impl Progress {
    /// Whether the frame is older than another one.
    pub fn is_older(&self, other: &Progress) -> bool
        ensures { result ≡ is_older self.now other.now }
    {
        self.number < other.number || (self.number == other.number && self.part < other.part)
    }

    /// The least of `far` and how many slaves an older frame in another slot has passed, if there is one: no frame overtakes.
    pub(crate) fn clearance_behind(&self, far: usize, other: Option<Progress>) -> usize
        ensures { result ≡ clearance_behind self.now far other }
    {
        match other {
            Some(other) if other.is_older(self) => far.min(other.passed),
            _ => far,
        }
    }
}
