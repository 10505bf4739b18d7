//! Texts of a user, printed so that they make no line of their own.
ghost use Rattle.std.specs.Prelude.{◌≡◌, ◌<◌, ◌++◌, ◌∷◌, [], IfOk, OnOk, encode_utf8_all, string_bytes};
ghost use Rattle.batch_messages.specs.Shown.{escape, hex_digit, shown, shown_char};

use std::alloc::{AllocError, Global};

/// The text with each control character as `\x` and two hexadecimal digits, and each backslash twice.
// claim: texts shown
pub fn shown(alloc: Global, text: &str) -> Result<String, AllocError>
    ensures { IfOk result (λ told. string_bytes told ≡ shown text.now) }
{
    let mut told = String::with_capacity(alloc, text.len())?;
    for letter in text.chars() {
        push_shown(&mut told, letter)?;
    }
    Ok(told)
}

fn push_shown(told: &mut String, letter: char) -> Result<(), AllocError>
    ensures { OnOk result (string_bytes told.new ≡ string_bytes told.old ++ encode_utf8_all (shown_char letter)) }
{
    let code = letter as u32;
    if code < 32 || code == 127 {
        return push_escape(told, code as u8);
    }
    if letter == '\\' {
        return push_twice(told, letter);
    }
    told.push(letter)
}

fn push_twice(told: &mut String, letter: char) -> Result<(), AllocError>
    ensures { OnOk result (string_bytes told.new ≡ string_bytes told.old ++ encode_utf8_all (letter ∷ letter ∷ [])) }
{
    told.push(letter)?;
    told.push(letter)
}

fn push_escape(told: &mut String, code: u8) -> Result<(), AllocError>
    requires { code < 128 }
    ensures { OnOk result (string_bytes told.new ≡ string_bytes told.old ++ encode_utf8_all (escape code)) }
{
    told.push('\\')?;
    told.push('x')?;
    told.push(hex_digit(code / 16))?;
    told.push(hex_digit(code % 16))
}

fn hex_digit(digit: u8) -> char
    requires { digit < 16 }
    ensures { result ≡ hex_digit digit }
{
    if digit < 10 {
        (b'0' + digit) as char
    } else {
        (b'a' + (digit - 10)) as char
    }
}
