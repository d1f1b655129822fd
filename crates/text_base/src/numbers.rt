//! Decimal numbers without leading zeros.
ghost use Rattle.std.specs.Prelude.{◌≡◌, ◌^◌, ◌≤◌, MatchOption, true};
ghost use Rattle.std.specs.List.{list_all};
ghost use Rattle.std.specs.Char.{is_ascii_digit};
ghost use Rattle.std.specs.Str.Parse.{digits_value};
ghost use Rattle.text_base.specs.Numbers.{has_no_leading_zero, is_number, number_of};

fn has_no_leading_zero(text: &[u8]) -> bool
    ensures { result ≡ has_no_leading_zero text.now }
{
    match text {
        [] => false,
        [_] => true,
        [first, ..] => *first != b'0',
    }
}

fn are_digits(text: &[u8]) -> bool
    ensures { result ≡ list_all is_ascii_digit text.now }
{
    text.iter().all(|octet| octet.is_ascii_digit())
}

fn is_number(text: &[u8]) -> bool
    ensures { result ≡ is_number text.now }
{
    has_no_leading_zero(text) && are_digits(text)
}

/// The value of digits, where it has at most 64 bits.
fn value(text: &[u8]) -> Option<u64>
    requires { list_all is_ascii_digit text.now ≡ true }
    ensures { MatchOption result (2 ^ 64 ≤ digits_value 10 text.now) (λ n. n ≡ digits_value 10 text.now) }
{
    let mut value: u64 = 0;
    for digit in text {
        let Some(tens) = value.checked_mul(10) else {
            return None;
        };
        let Some(next) = tens.checked_add(u64::from(*digit - b'0')) else {
            return None;
        };
        value = next;
    }
    Some(value)
}

/// The number that decimal digits write, where it is at most this one.
pub fn number(text: &[u8], most: u64) -> Option<u64>
    ensures { result ≡ number_of most text.now }
{
    if !is_number(text) {
        return None;
    }
    let Some(number) = value(text) else {
        return None;
    };
    if number > most {
        return None;
    }
    Some(number)
}
