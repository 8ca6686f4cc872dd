// The kinds of bytes in a text.

ghost use Rattle.std.specs.Prelude.{◌≡◌, ◌<◌, IsTrue};
ghost use Rattle.sexp_text.specs.Bytes.{is_white, is_letter, is_digit, is_name_byte, is_sign, is_run, is_plain, is_hex, hex_value};
ghost use Rattle.sexp_text.specs.Reading.{begins_escape};

/// Space, tab, line feed or carriage return.
#[tactic(auto, unfolding(crate::specs::Bytes::is_white))]
pub(crate) fn is_white(b: u8) -> bool
    ensures { result ≡ is_white b }
{
    b == b' ' || b == b'\t' || b == b'\n' || b == b'\r'
}

pub(crate) fn is_letter(b: u8) -> bool
    ensures { result ≡ is_letter b }
{
    b >= b'a' && b <= b'z'
}

pub(crate) fn is_digit(b: u8) -> bool
    ensures { result ≡ is_digit b }
{
    b >= b'0' && b <= b'9'
}

/// A byte of a word after its first letter.
#[tactic(auto, unfolding(crate::specs::Bytes::is_name_byte))]
pub(crate) fn is_name_byte(b: u8) -> bool
    ensures { result ≡ is_name_byte b }
{
    is_letter(b) || is_digit(b) || b == b'_' || b == b'.'
}

#[tactic(auto, unfolding(crate::specs::Bytes::is_sign))]
pub(crate) fn is_sign(b: u8) -> bool
    ensures { result ≡ is_sign b }
{
    b == b'+' || b == b'-' || b == b'*' || b == b'='
}

/// A byte of a run, the longest stretch that is read as a number or a word.
#[tactic(auto, unfolding(crate::specs::Bytes::is_run))]
pub(crate) fn is_run(b: u8) -> bool
    ensures { result ≡ is_run b }
{
    is_name_byte(b) || is_sign(b) || b == b'<'
}

/// A byte that stands for itself in a string.
#[tactic(auto, unfolding(crate::specs::Bytes::is_plain))]
pub(crate) fn is_plain(b: u8) -> bool
    ensures { result ≡ is_plain b }
{
    b >= b' ' && b <= b'!' || b >= b'#' && b <= b'[' || b >= b']' && b <= b'~'
}

/// A hexadecimal digit in lower case.
#[tactic(auto, unfolding(crate::specs::Bytes::is_hex))]
pub(crate) fn is_hex(b: u8) -> bool
    ensures { result ≡ is_hex b }
{
    is_digit(b) || b >= b'a' && b <= b'f'
}

/// The first digit of an escape: some byte that it begins is not plain.
#[tactic(auto, unfolding(crate::specs::Reading::begins_escape))]
pub(crate) fn begins_escape(b: u8) -> bool
    ensures { result ≡ begins_escape b }
{
    b >= b'0' && b <= b'2' || b == b'5' || b >= b'7' && b <= b'9' || b >= b'a' && b <= b'f'
}

/// The number that a hexadecimal digit stands for.
#[tactic(auto, unfolding(crate::specs::Bytes::is_hex, crate::specs::Bytes::hex_value))]
pub(crate) fn hex_value(b: u8) -> u8
    requires { IsTrue (is_hex b) }
    ensures value { result ≡ hex_value b }
    ensures bounded { result < 16 }
{
    if b <= b'9' { b - b'0' } else { b - 87 }
}
