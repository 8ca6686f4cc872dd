ghost use Rattle.std.specs.Prelude.{◌≡◌, ◌<◌, ◌/◌};
ghost use Rattle.std.specs.Char.{digit_char};
ghost use Rattle.wasm_values.specs.Places.{hex_digit, place_text};

/// The hexadecimal digit of a number, in lower case.
pub fn digit_char(digit: u8) -> u8
    requires { digit < 16 }
    ensures { result ≡ digit_char digit }
{
    if digit < 10 { b'0' + digit } else { 87 + digit }
}

fn hex_digit(number: usize) -> u8
    ensures { result ≡ hex_digit number }
{
    digit_char((number % 16) as u8)
}

/// A place as reports and listings print it.
#[tactic(auto, unfolding(crate::specs::Places::place_text))]
pub fn place_text(at: usize) -> [u8; 10]
    ensures { result ≡ place_text at }
{
    [
        b'0',
        b'x',
        hex_digit(at / 0x1000_0000),
        hex_digit(at / 0x100_0000),
        hex_digit(at / 0x10_0000),
        hex_digit(at / 0x1_0000),
        hex_digit(at / 0x1000),
        hex_digit(at / 0x100),
        hex_digit(at / 0x10),
        hex_digit(at),
    ]
}
