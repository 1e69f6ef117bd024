ghost use Rattle.std.specs.Prelude.{◌≡◌};
ghost use Rattle.eb_options.specs.Numbers.{are_digits, number};

// Whether the word is one to `most` digits.
fn are_digits(word: &str, most: usize) -> bool
    ensures { result ≡ are_digits most word.now }
{
    let bytes = word.as_bytes();
    if bytes.is_empty() || bytes.len() > most {
        return false;
    }
    for byte in bytes {
        if !byte.is_ascii_digit() {
            return false;
        }
    }
    true
}

/// The number that a word of one to `most` digits writes, if 64 bits hold it; leading zeros are
/// allowed.
pub fn read_number(word: &str, most: usize) -> Option<u64>
    ensures { result ≡ number most word.now }
{
    if !are_digits(word, most) {
        return None;
    }
    word.parse::<u64>().ok()
}

/// The number of one to nine digits that a word writes; leading zeros are allowed.
pub fn read_nine(word: &str) -> Option<u32>
    ensures { result ≡ number 9 word.now }
{
    let number = read_number(word, 9)?;
    Some(number as u32)
}
