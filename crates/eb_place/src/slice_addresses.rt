ghost use Rattle.std.specs.Prelude.{◌≡◌, ◌+◌, ◌*◌, ◌^◌, ◌<◌};
ghost use Rattle.eb_place.specs.Layout.{address_number, address_pool, address_slice, address_offset, slice_bits};

// The bits of an address below its pool.
const POOL_BITS: u32 = 30;

/// The address of a place of a slice: the pool, 0 to 3, the number of the slice in it, and the
/// offset in the slice. A slice has 2, 16, 128 or 2,048 places by its pool (this project's profile,
/// docs/FORMATS.md).
pub fn address(pool: u32, slice: u32, offset: u32) -> u32
    requires pool { pool < 4 }
    requires slice { slice * 2 ^ slice_bits pool + offset < 2 ^ 30 }
    requires offset { offset < 2 ^ slice_bits pool }
    ensures { result ≡ address_number pool slice offset }
{
    (pool << POOL_BITS) + (slice << bits_of(pool)) + offset
}

/// The pool of an address, 0 to 3.
pub fn pool_of(address: u32) -> u32
    ensures { result ≡ address_pool address }
{
    address >> POOL_BITS
}

/// The slice of an address, by its number in the pool.
pub fn slice_of(address: u32) -> u32
    ensures { result ≡ address_slice address }
{
    (address % (1 << POOL_BITS)) >> bits_of(pool_of(address))
}

/// The offset of an address in its slice.
pub fn offset_of(address: u32) -> u32
    ensures { result ≡ address_offset address }
{
    address % (1 << bits_of(pool_of(address)))
}

// A slice of the pool has 2 to this power places. The powers are the bytes of one number, so that
// nothing branches by the pool (`words_before` says why).
fn bits_of(pool: u32) -> u32
    requires { pool < 4 }
    ensures { result ≡ slice_bits pool }
{
    (u32::from_le_bytes([1, 4, 7, 11]) >> (8 * pool)) % 256
}
