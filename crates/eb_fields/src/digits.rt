ghost use Rattle.std.specs.Prelude.{◌≡◌};
ghost use Rattle.std.specs.List.{position_or_len};
ghost use Rattle.eb_fields.specs.Digits.{is_no_digit};

// Whether the byte is no ASCII digit.
fn is_no_digit_byte(byte: u8) -> bool
    ensures { result ≡ is_no_digit byte }
{
    byte < b'0' || b'9' < byte
}

/// How many digits the text begins with.
pub fn digits_at(bytes: &[u8]) -> usize
    ensures { result ≡ position_or_len is_no_digit bytes.now }
{
    for (at, byte) in bytes.iter().enumerate() {
        if is_no_digit_byte(*byte) {
            return at;
        }
    }
    bytes.len()
}
