//! Which points of a script are wanted.

ghost use Rattle.std.specs.Prelude.{◌≡◌, ◌≤◌, ◌-◌, ◌+◌};
ghost use Rattle.std.specs.List.{range_with_len};
ghost use Rattle.explore.specs.Points.{part_of};

use crate::evictions::Evictions;

/// Some of the points of a script, numbered as in the whole report: those from one on, so many of them, or all that
/// there are from there on.
#[derive(Clone, Copy)]
pub struct Part {
    pub from: u64,
    pub count: Option<u64>,
}

/// All points.
pub const WHOLE: Part = Part {
    from: 0,
    count: None,
};

/// Which points are wanted, and which words are evicted before each.
#[derive(Clone, Copy)]
pub struct Wanted {
    pub evictions: Evictions,
    pub part: Part,
}

impl Part {
    /// Which of so many points are of the part: from this one up to that one.
    pub(crate) fn ends(self, points: usize) -> (usize, usize)
        ensures ordered { result.0 ≤ result.1 }
        ensures within { result.1 ≤ points }
        ensures part { part_of self (range_with_len 0 points) ≡ range_with_len result.0 (result.1 - result.0) }
    {
        let from = self.from.min(points as u64) as usize;
        let Some(count) = self.count else {
            return (from, points);
        };
        let left = (points - from) as u64;
        (from, from + count.min(left) as usize)
    }
}
