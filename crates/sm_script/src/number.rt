ghost use Rattle.std.specs.Prelude.{◌≡◌, ◌≢◌, ◌-◌, ◌^◌, ◌≤◌, ◌<◌, ℕ, IfSome, IfNone, IsTrue, decimal, pos};
ghost use Rattle.std.specs.Char.{is_ascii_digit};
ghost use Rattle.std.specs.List.{list_all};
ghost use Rattle.std.specs.Option.{SomeIff};
ghost use Rattle.sm_script.specs.Numbers.{has_no_leading_zero, is_number, number, number_between, increment_of};
ghost use lib.IntN.{neg_ℤ};

// Returns whether the word has one digit, or has more and the first isn't `0`.
fn has_no_leading_zero(word: &[u8]) -> bool
    ensures { result ≡ has_no_leading_zero word.now }
{
    match word {
        [] => false,
        [_] => true,
        [first, ..] => *first != b'0',
    }
}

// Returns whether each byte is a digit.
fn has_only_digits(word: &[u8]) -> bool
    ensures { result ≡ list_all is_ascii_digit word.now }
{
    word.iter().all(u8::is_ascii_digit)
}

// Returns whether the word is `0`, or a digit 1 to 9 with digits after it.
fn is_number(word: &[u8]) -> bool
    ensures { result ≡ is_number word.now }
{
    has_no_leading_zero(word) && has_only_digits(word)
}

// Returns the number that the word spells, if 64 bits hold it.
fn number(word: &[u8]) -> Option<u64>
    ensures value { SomeIff result (IsTrue (is_number word.now) × (number word.now < 2 ^ 64))
        (number word.now) }

    // The word is then the one way in which that number is written.
    ensures spelled { IfSome result (λ n. word.now ≡ decimal n) }
    ensures not_spelled { IfNone result ((n : ℕ) → n < 2 ^ 64 → word.now ≢ decimal n) }
{
    if !is_number(word) {
        return None;
    }
    match std::str::from_utf8(word) {
        Ok(digits) => match digits.parse::<u64>() {
            Ok(number) => Some(number),
            Err(_) => None,
        },
        Err(_) => None,
    }
}

/// Returns the number that the word spells, if it lies between `least` and `most`.
pub(crate) fn number_between(word: &[u8], least: u64, most: u64) -> Option<u64>
    ensures { result ≡ number_between least most word.now }
{
    match number(word) {
        Some(number) if least <= number && number <= most => Some(number),
        _ => None,
    }
}

// Returns the number that lies as far below 0 as this one lies above.
fn negative(number: u64) -> i64
    requires { (1 ≤ number) × (number ≤ 2 ^ 63) }
    ensures { result ≡ neg_ℤ (pos number) }
{
    -1 - (number - 1) as i64
}

/// Returns the number that the word spells, if 64 bits hold it. A `-` may come before a number that isn't 0.
pub(crate) fn increment(word: &[u8]) -> Option<i64>
    ensures { result ≡ increment_of word.now }
{
    match word {
        [] => None,
        [b'-', digits @ ..] => {
            let number = number_between(digits, 1, 1 << 63)?;
            Some(negative(number))
        }
        _ => {
            let number = number_between(word, 0, i64::MAX as u64)?;
            Some(number as i64)
        }
    }
}
