// Digits and numbers.
ghost use Rattle.std.specs.Prelude.{◌≡◌, ◌^◌, ◌<◌, ◌≤◌, Err, Option, MatchOption, IfSome};
ghost use Rattle.std.specs.Option.{ForSome};
ghost use Rattle.tokens.specs.Numbers.{digit, value_of, ranged, shaped, any, up_to, number_of};

use crate::WordFault;

// The value of one digit. `char::to_digit` would take small letters too.
fn digit_value(radix: u32, byte: u8) -> Option<u32>
    ensures is { result ≡ digit radix byte }
    ensures small { IfSome result (λ d. d < 16) }
{
    match byte {
        b'0'..=b'9' => Some(u32::from(byte - b'0')),
        b'A'..=b'F' if radix == 16 => Some(u32::from(byte - b'A') + 10),
        _ => None,
    }
}

// The value of `least` to `most` digits.
#[tactic(auto, using(crate::proofs::Digits::one_more), unfolding(crate::specs::Numbers::value_of))]
pub(crate) fn digits_value(radix: u32, least: usize, most: usize, part: &[u8]) -> Option<u32>
    requires radix_bound { radix ≤ 16 }
    requires most_bound { most ≤ 5 }
    ensures is { result ≡ value_of radix least most part.now }
    ensures small { MatchOption result (most ≤ 5) (λ v. v < 16 ^ most) }
{
    if part.len() < least || part.len() > most {
        return None;
    }
    let mut value = 0;
    for byte in part {
        value = value * radix + digit_value(radix, *byte)?;
    }
    Some(value)
}

// What a value of digits decodes to. Where there is none the word is no token, and a value that decodes to nothing is out of range.
pub(crate) fn shaped<T, F: FnOnce(u32) -> Option<T>>(
    value: Option<u32>,
    decode: F,
) -> Result<T, WordFault>
    requires { ForSome value (F.pre decode) }
    ensures { MatchOption value (result ≡ Err WordFault.Unlisted) (λ v. (decoded : Option T) × F.post decode v decoded × (result ≡ ranged decoded)) }
{
    let value = value.ok_or(WordFault::Unlisted)?;
    decode(value).ok_or(WordFault::OutOfRange)
}

// The value of a number: a point and one to four hexadecimal digits, or one to five decimal digits up to 65535.
#[tactic(auto, using(crate::proofs::Parts::first_bytes), unfolding(crate::specs::Numbers::number_of))]
pub(crate) fn number(part: &[u8]) -> Result<u16, WordFault>
    ensures { result ≡ number_of part.now }
{
    let value = match part {
        [b'.', digits @ ..] => digits_value(16, 1, 4, digits),
        _ => digits_value(10, 1, 5, part),
    };
    shaped(value, |value| u16::try_from(value).ok())
}
