ghost use Rattle.std.specs.Prelude.{◌≡◌, ℕ, ◌+◌, ◌<◌, ◌≤◌, ◌^◌, length, slice_index, MatchOption};
ghost use Rattle.eb_base.specs.Document.{most_tokens, most_bytes};
ghost use Rattle.eb_image.specs.Reading.{IsNextPart, Begins};
ghost use Rattle.eb_image.specs.Scan.{two_byte_number, HasTerms, IsShortest};

use eb_base::{MAX_BYTES, MAX_TOKENS};

// The bytes of a part before its terms.
pub(crate) const BEFORE_TERMS: usize = 11;

// The most bytes of a part.
pub(crate) const LONGEST_PART: usize = BEFORE_TERMS + 2 * MAX_TOKENS + MAX_BYTES;

// The byte at this place, or 0 after the last.
pub(crate) fn byte_at(bytes: &[u8], at: usize) -> u8
    ensures { result ≡ slice_index bytes.now at }
{
    if at < bytes.len() { bytes[at] } else { 0 }
}

// The number in the two bytes at this place.
pub(crate) fn two_bytes_at(bytes: &[u8], at: usize) -> usize
    requires { at < 2 ^ 32 }
    ensures value { result ≡ two_byte_number bytes.now at }
    ensures small { result < 2 ^ 16 }
{
    256 * usize::from(byte_at(bytes, at)) + usize::from(byte_at(bytes, at + 1))
}

// Where this many terms end, if they have no more bytes than a document may have.
fn end_of_terms(bytes: &[u8], count: usize) -> Option<usize>
    requires { count ≤ most_tokens }
    ensures value { MatchOption result ((end : ℕ) → HasTerms bytes.now count BEFORE_TERMS most_bytes end → ⊥)
        (λ end. HasTerms bytes.now count BEFORE_TERMS most_bytes end) }
    ensures within { MatchOption result (Unit {0}) (λ end. end ≤ LONGEST_PART) }
{
    let mut at = BEFORE_TERMS;
    let mut room = MAX_BYTES;
    'terms: for _ in 0..count {
        let len = two_bytes_at(bytes, at);
        if len > room {
            return None;
        }
        at += 2 + len;
        room -= len;
    }
    Some(at)
}

// The length of the shortest part of a document within the limits that the bytes begin.
fn shortest_part(bytes: &[u8]) -> Option<usize>
    requires some { 0 < length bytes.now }
    requires first { slice_index bytes.now 0 ≡ 1 }
    ensures form { MatchOption result (Begins IsNextPart bytes.now → ⊥) (IsShortest bytes.now) }
    ensures within { MatchOption result (Unit {0}) (λ end. end ≤ LONGEST_PART) }
{
    let count = two_bytes_at(bytes, 9);
    if count > MAX_TOKENS {
        return None;
    }
    match end_of_terms(bytes, count) {
        Some(end) => {
            if end < bytes.len() {
                return None;
            }
            Some(end)
        }
        None => None,
    }
}

// The length of the shortest part of a document within the limits, or of the byte 0, that the bytes
// begin.
pub(crate) fn shortest(bytes: &[u8]) -> Option<usize>
    requires { 0 < length bytes.now }
    ensures form { MatchOption result (Begins IsNextPart bytes.now → ⊥) (IsShortest bytes.now) }
    ensures within { MatchOption result (Unit {0}) (λ end. end ≤ LONGEST_PART) }
{
    if bytes[0] == 1 {
        return shortest_part(bytes);
    }
    if bytes[0] > 0 {
        return None;
    }
    if bytes.len() > 1 {
        return None;
    }
    Some(1)
}
