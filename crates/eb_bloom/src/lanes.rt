//! The bits of a row.
ghost use Rattle.std.specs.Prelude.{◌≡◌, ◌≤◌};
ghost use Rattle.eb_bloom.specs.Bits.{doubled};

// This many segments, rounded up to a power of two.
pub(crate) fn lanes_of(segments: u32) -> u32
    requires { segments ≤ 64 }
    ensures { result ≡ doubled 6 1 segments }
{
    let mut lanes = 1;
    for _step in 0..6u32 {
        if lanes < segments {
            lanes *= 2;
        }
    }
    lanes
}
