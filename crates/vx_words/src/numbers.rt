//! The numbers of a command line.

ghost use Rattle.std.specs.Prelude.{◌≡◌, ◌≤◌, IfSome};
ghost use Rattle.std.specs.Char.{is_ascii_digit};
ghost use Rattle.std.specs.List.{list_all};
ghost use Rattle.vx_words.specs.Numbers.{is_number, number_of, number_between};

/// The most digits that a number has.
const MOST_DIGITS: usize = 10;

/// The number that a text writes: 1 to 10 ASCII digits and nothing else. Zeros may lead; a sign may not.
pub fn number_of(text: &str) -> Option<u64>
    ensures { result ≡ number_of text.now }
{
    if !is_number(text) {
        return None;
    }
    text.parse().ok()
}

fn is_number(text: &str) -> bool
    ensures { result ≡ is_number text.now }
{
    let digits = text.as_bytes();
    if digits.is_empty() || digits.len() > MOST_DIGITS {
        return false;
    }
    are_digits(digits)
}

fn are_digits(bytes: &[u8]) -> bool
    ensures { result ≡ list_all is_ascii_digit bytes.now }
{
    bytes.iter().all(|byte| byte.is_ascii_digit())
}

/// The number that a text writes, where it lies in this range, both ends included.
pub(crate) fn number_between(text: &str, least: u64, most: u64) -> Option<u64>
    ensures is { result ≡ number_between text.now least most }
    ensures within { IfSome result (λ number. (least ≤ number) × (number ≤ most)) }
{
    let number = number_of(text)?;
    if number < least || number > most {
        return None;
    }
    Some(number)
}
