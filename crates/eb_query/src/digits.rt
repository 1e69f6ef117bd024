ghost use Rattle.std.specs.Prelude.{◌≡◌, ◌≤◌, length};
ghost use Rattle.eb_fields.specs.Digits.{decimal_after};

/// The value of at most 16 digits.
pub fn value_of(digits: &[u8]) -> u64
    requires { length digits.now ≤ 16 }
    ensures { result ≡ decimal_after 0 digits.now }
{
    let mut value: u64 = 0;
    for digit in digits {
        value = 10 * value + u64::from(digit.saturating_sub(b'0'));
    }
    value
}
