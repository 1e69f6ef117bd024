//! Numbers of JSON.
ghost use Rattle.std.specs.Prelude.{◌≡◌, true, false, option_map, IsTrue, ◌==◌, slice_index, ◌<◌, length};
ghost use Rattle.serde_json.specs.Find.{as_u64};
ghost use Rattle.serde_json.specs.Read.{number_of, number_from, float_of};

use fast_float::Numeral;

// The number that a token of JSON writes: `Some(None)` where it isn't whole or not below 2^64, and
// `None` where no number is in range.
pub(crate) fn whole_number(text: &str) -> Option<Option<u64>>
    ensures { result ≡ option_map as_u64 (number_of text.now) }
{
    let bytes = text.as_bytes();
    if has_minus(bytes) {
        below_zero(&Numeral::scan(&bytes[1..]))
    } else {
        not_below_zero(&Numeral::scan(bytes))
    }
}

// Whether the number begins with a minus.
fn has_minus(bytes: &[u8]) -> bool
    ensures value { result ≡ (slice_index bytes.now 0 == 45) }
    ensures len { IsTrue result → 0 < length bytes.now }
{
    !bytes.is_empty() && bytes[0] == b'-'
}

// What `whole_number` gives for a number without a minus.
fn not_below_zero(numeral: &Numeral<'_>) -> Option<Option<u64>>
    ensures { result ≡ option_map as_u64 (number_from false numeral.now) }
{
    match numeral.to_u64() {
        Some(n) => Some(Some(n)),
        None => in_range(false, numeral),
    }
}

// What `whole_number` gives for a number with a minus, which is left off.
fn below_zero(numeral: &Numeral<'_>) -> Option<Option<u64>>
    ensures { result ≡ option_map as_u64 (number_from true numeral.now) }
{
    if let Some(n) = numeral.to_i64(true) {
        if n < 0 {
            return Some(None);
        }
    }
    in_range(true, numeral)
}

// `Some(None)` where the number is in range of a float, else `None`.
fn in_range(negative: bool, numeral: &Numeral<'_>) -> Option<Option<u64>>
    ensures { result ≡ option_map as_u64 (float_of negative numeral.now) }
{
    if numeral.to_float::<f64>(negative).is_finite() {
        Some(None)
    } else {
        None
    }
}
