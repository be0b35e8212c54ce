// Numbers on the command line.
ghost use Rattle.std.specs.Prelude.{◌≡◌};
ghost use Rattle.std.specs.Char.{is_ascii_digit};
ghost use Rattle.std.specs.List.{list_all};
ghost use Rattle.spin_words.specs.Commands.{number_in};

// The number that a word writes: `0`, or digits without a leading 0, below 2^64.
pub(crate) fn number_of(word: &str) -> Option<u64>
    ensures { result ≡ number_in word.now }
{
    let digits = word.as_bytes();
    if digits.len() == 0 {
        return None;
    }
    if !are_digits(digits) {
        return None;
    }
    if digits[0] == b'0' && digits.len() > 1 {
        return None;
    }
    match word.parse() {
        Ok(number) => Some(number),
        Err(_) => None,
    }
}

fn are_digits(bytes: &[u8]) -> bool
    ensures { result ≡ list_all is_ascii_digit bytes.now }
{
    bytes.iter().all(|byte| byte.is_ascii_digit())
}
