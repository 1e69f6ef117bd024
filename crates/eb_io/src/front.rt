ghost use Rattle.std.specs.Prelude.{◌≡◌, ◌<◌, ◌^◌, ◌↔◌, length, take, min, IsTrue};
ghost use Rattle.eb_io.specs.Memory.{IsListed};

// Copies as many of the first bytes as there is room for, at most `most`.
pub(crate) fn copy_front(from: &[u8], into: &mut [u8], most: usize) -> usize
    ensures count { result ≡ min most (min (length into.old) (length from.now)) }
    ensures bytes { take result into.new ≡ take result from.now }
{
    let count = most.min(into.len().min(from.len()));
    into[..count].copy_from_slice(&from[..count]);
    count
}

// Whether the call of this number is to fail. At the last number, which later calls share, none is.
pub(crate) fn is_listed(failing: &[u64], call: u64) -> bool
    requires { call < 2 ^ 64 }
    ensures { IsTrue result ↔ IsListed failing.now call }
{
    call < u64::MAX && failing.contains(&call)
}
