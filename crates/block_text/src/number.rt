//! The tokens that spell numbers.

ghost use Rattle.std.specs.Prelude.{◌≡◌, ◌<◌, ◌^◌, IsTrue};
ghost use Rattle.std.specs.Char.{is_ascii_digit};
ghost use Rattle.std.specs.List.{list_all};
ghost use Rattle.block_text.specs.Letters.{is_number, number_within, is_negative, digits_of, is_integer, integer_within};

/// The limit of a number.
pub const NUMBER_LIMIT: u128 = 4294967295;

/// The limit of an integer and of its negative.
pub const INTEGER_LIMIT: u128 = 170141183460469231731687303715884105727;

fn are_digits(bytes: &[u8]) -> bool
    ensures { result ≡ list_all is_ascii_digit bytes.now }
{
    bytes.iter().all(|byte| byte.is_ascii_digit())
}

/// Whether the token is one or more decimal digits.
pub fn is_number(token: &[u8]) -> bool
    ensures { result ≡ is_number token.now }
{
    !token.is_empty() && are_digits(token)
}

/// The value of digits, if it is at most the limit.
pub fn number_within(most: u128, digits: &[u8]) -> Option<u128>
    requires number { IsTrue (is_number digits.now) }
    requires limit { most < 2 ^ 127 }
    ensures { result ≡ number_within most digits.now }
{
    let mut value: u128 = 0;
    for byte in digits {
        if value > INTEGER_LIMIT / 10 {
            return None;
        }
        value = value * 10 + u128::from(*byte - b'0');
    }
    if value <= most { Some(value) } else { None }
}

fn is_negative(token: &[u8]) -> bool
    ensures { result ≡ is_negative token.now }
{
    match token {
        [first, ..] => *first == b'-',
        [] => false,
    }
}

fn digits_of(token: &[u8]) -> &[u8]
    ensures { result.now ≡ digits_of token.now }
{
    if is_negative(token) {
        &token[1..]
    } else {
        token
    }
}

/// Whether the token is a number, or a `-` and a number.
pub fn is_integer(token: &[u8]) -> bool
    ensures { result ≡ is_integer token.now }
{
    is_number(digits_of(token))
}

/// The value of an integer, if its absolute value is at most the limit.
pub fn integer_within(most: u128, token: &[u8]) -> Option<i128>
    requires integer { IsTrue (is_integer token.now) }
    requires limit { most < 2 ^ 127 }
    ensures { result ≡ integer_within most token.now }
{
    let value = number_within(most, digits_of(token))? as i128;
    Some(if is_negative(token) { -value } else { value })
}
