// Numbers in decimal digits.

ghost use Rattle.std.specs.Prelude.{◌≡◌, ◌^◌, ◌<◌, List, Some, IfSome, pos, ◌<ℤ◌, neg_ℤ};
ghost use Rattle.first_reader.specs.Lexemes.{digits_value, magnitude, numeral};

/// Every number has an absolute value below this.
const LIMIT: u128 = 1_329_227_995_784_915_872_903_807_060_280_344_576;

#[tactic(auto, unfolding(crate::specs::Lexemes::digits_value))]
fn digits_value(digits: &[u8]) -> Option<u128>
    ensures value { result ≡ digits_value digits.now }
    ensures below { IfSome result (λ n. n < 2 ^ 120) }
{
    let mut value: u128 = 0;
    for digit in digits {
        if *digit < 48 || 57 < *digit {
            return None;
        }
        value = 10 * value + u128::from(*digit - 48);
        if LIMIT <= value {
            return None;
        }
    }
    Some(value)
}

fn magnitude(digits: &[u8]) -> Option<u128>
    ensures value { result ≡ magnitude digits.now }
    ensures below { IfSome result (λ n. n < 2 ^ 120) }
{
    match digits {
        [] => None,
        [b'0', _, ..] => None,
        _ => digits_value(digits),
    }
}

/// The number that the bytes spell.
#[tactic(auto, unfolding(crate::specs::Lexemes::numeral))]
pub fn numeral(bytes: &[u8]) -> Option<i128>
    ensures { result ≡ numeral bytes.now }
{
    match bytes {
        [] => None,
        [b'-', digits @ ..] => match magnitude(digits) {
            None => None,
            Some(n) => { if n == 0 { None } else { Some(-(n as i128)) } }
        },
        _ => match magnitude(bytes) {
            None => None,
            Some(n) => Some(n as i128),
        },
    }
}
