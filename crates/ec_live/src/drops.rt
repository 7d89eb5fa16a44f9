//! Frames that a live segment drops.
ghost use Rattle.std.specs.Prelude.{◌≡◌, ◌-◌, ◌==◌, ◌&&◌, not, IfOk, false, length, nat_lt, true};
ghost use Rattle.std.specs.List.{list_all};
ghost use Rattle.ec_live.specs.Drops.{counted_down, dropping, dropping_part, is_dropped, no_drops};

use std::alloc::{AllocError, Global};
use std::marker::Model;

/// How many of the next frames are dropped, and how many of the next cyclic frames of each part.
#[derive(Drop)]
pub struct Drops {
    any: u64,
    parts: Vec<u64>,
}

impl Model for Drops {
    ghost use Rattle.ec_live.specs.Drops.{DropState};

    ghost Value = { DropState };

    ghost view = { λ d. record { any = d.any; parts = d.parts.items } };
}

impl Drops {
    /// No frame is dropped, of a plan with so many parts.
    ///
    /// # Errors
    ///
    /// `AllocError` if there is no memory.
    pub fn new(alloc: Global, parts: usize) -> Result<Drops, AllocError>
        ensures { IfOk result (λ drops. drops ≡ no_drops parts) }
    {
        Ok(Drops {
            any: 0,
            parts: vec![in alloc; 0; parts]?,
        })
    }

    /// Whether some frame may be dropped.
    #[tactic(auto, using(crate::proofs::Dropping::some_pending, crate::proofs::Dropping::none_pending))]
    pub fn is_pending(&self) -> bool
        ensures { result ≡ not ((self.now.any == 0) && list_all (λ n. n == 0) self.now.parts) }
    {
        if self.any > 0 {
            return true;
        }
        !self.parts.iter().all(|count| *count == 0)
    }

    /// Drops the next `count` frames.
    pub fn drop_next(&mut self, count: u64)
        ensures { self.new ≡ dropping count self.old }
    {
        self.any = self.any.max(count);
    }

    /// Drops the next `count` cyclic frames of a part. Returns whether the plan has this part; if it doesn't, nothing changes.
    pub fn drop_part(&mut self, count: u64, part: usize) -> bool
        ensures there { result ≡ nat_lt part (length self.old.parts) }
        ensures dropped { result ≡ true → self.new ≡ dropping_part count part self.old }
        ensures none { result ≡ false → self.new ≡ self.old }
    {
        if part >= self.parts.len() {
            return false;
        }
        self.parts[part] = self.parts[part].max(count);
        true
    }

    /// Counts a frame that comes: the cyclic frame of a part, or another. Returns whether it is dropped.
    pub fn count(&mut self, part: Option<usize>) -> bool
        ensures dropped { result ≡ is_dropped self.old part }
        ensures counted { self.new ≡ counted_down self.old part }
    {
        let of_any = count_down(&mut self.any);
        let of_part = match part {
            Some(part) if part < self.parts.len() => count_down(&mut self.parts[part]),
            _ => false,
        };
        of_any || of_part
    }
}

/// Takes one off a count, and returns whether there was one.
fn count_down(count: &mut u64) -> bool
    ensures some { result ≡ nat_lt 0 count.old }
    ensures one { count.new ≡ count.old - 1 }
{
    let before = *count;
    *count = before.saturating_sub(1);
    before > 0
}
