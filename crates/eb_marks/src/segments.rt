//! A set of segments.
ghost use Rattle.std.specs.Prelude.{◌≡◌, ◌≢◌, ℕ, ◌<◌, ◌≤◌, ◌&&◌, ◌||◌, true, false, get_or};
ghost use Rattle.eb_marks.specs.Members.{has_mark, IsLastBelow};

use std::marker::Model;

/// A set of segments of an index, which has at most 64. Contracts see a list of 64 flags, one for
/// each segment; of a further segment the set says that it is a member.
#[derive(Clone, Copy, Debug)]
pub struct Segments {
    bits: u64,
}

impl Model for Segments {
    ghost use Rattle.std.specs.Prelude.{◌<◌, ◌^◌, Bool, List};
    ghost use Rattle.eb_marks.specs.Members.{flags, number, number_flags};

    ghost Value = { List Bool };

    ghost view = { λ s. flags 64 s.bits };

    ghost invariant = { λ s. s.bits < 2 ^ 64 };

    ghost inverse = { λ flags. record { bits = number flags } };

    ghost inverse_ok = { λ s h i. record { bits = number_flags 64 s.bits h i } };
}

impl Segments {
    /// All segments.
    pub fn all() -> Segments
        ensures { (s : ℕ) → get_or result s true ≡ true }
    {
        Segments { bits: u64::MAX }
    }

    /// Of the first `end` segments those whose bit is set in the marks, and all further ones.
    pub fn marked(marks: u64, end: u32) -> Segments
        requires { end ≤ 64 }
        ensures marked { (s : ℕ) → s < end → get_or result s true ≡ has_mark marks s }
        ensures further { (s : ℕ) → end ≤ s → get_or result s true ≡ true }
    {
        if end == 64 {
            return Segments { bits: marks };
        }
        Segments {
            bits: marks | (u64::MAX << end),
        }
    }

    /// Whether this segment is a member.
    pub fn has(self, segment: u32) -> bool
        requires { segment < 64 }
        ensures { result ≡ get_or self segment true }
    {
        (self.bits >> segment) & 1 == 1
    }

    /// Those that are members, but not this one.
    pub fn without(self, segment: u32) -> Segments
        requires { segment < 64 }
        ensures out { get_or result segment true ≡ false }
        ensures others { (s : ℕ) → s ≢ segment → get_or result s true ≡ get_or self s true }
    {
        Segments {
            bits: self.bits & !(1 << segment),
        }
    }

    /// Those that are members of both.
    pub fn and(self, other: Segments) -> Segments
        ensures { (s : ℕ) → get_or result s true ≡ (get_or self s true && get_or other s true) }
    {
        Segments {
            bits: self.bits & other.bits,
        }
    }

    /// Those that are members of one or of both.
    pub fn or(self, other: Segments) -> Segments
        ensures { (s : ℕ) → get_or result s true ≡ (get_or self s true || get_or other s true) }
    {
        Segments {
            bits: self.bits | other.bits,
        }
    }

    /// The greatest member below an end, `None` exactly where there is none.
    pub fn last_below(self, end: u32) -> Option<u32>
        requires { end ≤ 64 }
        ensures { IsLastBelow self end result }
    {
        let mut below = self.bits;
        if end < 64 {
            below %= 1 << end;
        }
        if below == 0 {
            return None;
        }
        Some(63 - below.leading_zeros())
    }
}
