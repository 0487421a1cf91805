//! Numbers as words of the command line write them.

ghost use Rattle.std.specs.Prelude.{◌≡◌, ◌≤◌, IfSome};
ghost use Rattle.corr_words.specs.Words.{number};
ghost use Rattle.corr_words.specs.Forms.{number_to};

/// The number that a word writes: 1 to 20 decimal digits with a value below 2^64.
pub fn read_number(word: &[u8]) -> Option<u64>
    ensures { result ≡ number word.now }
{
    if word.is_empty() || word.len() > 20 {
        return None;
    }
    let mut value = 0u128;
    for digit in word {
        if !digit.is_ascii_digit() {
            return None;
        }
        value = 10 * value + u128::from(*digit - b'0');
    }
    u64::try_from(value).ok()
}

/// The same, where it is from 1 to the most that is allowed.
pub fn number_to(most: u64, word: &str) -> Option<u64>
    ensures value { result ≡ number_to most word.now }
    ensures within { IfSome result (λ n. (1 ≤ n) × (n ≤ most)) }
{
    let number = read_number(word.as_bytes())?;
    if 1 <= number && number <= most {
        Some(number)
    } else {
        None
    }
}
