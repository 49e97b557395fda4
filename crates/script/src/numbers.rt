// The numbers of a script: hexadecimal words, decimal counts, and the amounts of a round.
ghost use Rattle.std.specs.Prelude.{◌≡◌, ◌≤◌};
ghost use Rattle.script.specs.Numbers.{numeral, hex_word, decimal_number, bit_pattern, amount_of};

use std::num::f32_from_bits_with_nan;

// Whether the text is one digit or more, and nothing else.
fn is_numeral(text: &str, radix: u32) -> bool
    requires { (2 ≤ radix) × (radix ≤ 36) }
    ensures { result ≡ numeral radix text.now }
{
    text.bytes().all(|byte| char::from(byte).is_digit(radix)) && !text.is_empty()
}

// One to four hexadecimal digits. One function with `bit_pattern` would cast its number, and is no plainer.
pub(crate) fn hex_word(text: &str) -> Option<u16>
    ensures { result ≡ hex_word text.now }
{
    if text.len() <= 4 && is_numeral(text, 16) {
        u16::from_str_radix(text, 16).ok()
    } else {
        None
    }
}

// Decimal digits; a number that is too large is taken as the largest.
pub(crate) fn decimal(text: &str) -> Option<usize>
    ensures { result ≡ decimal_number text.now }
{
    if is_numeral(text, 10) {
        Some(usize::from_str_radix(text, 10).unwrap_or(usize::MAX))
    } else {
        None
    }
}

// Eight hexadecimal digits.
fn bit_pattern(text: &str) -> Option<u32>
    ensures { result ≡ bit_pattern text.now }
{
    if text.len() == 8 && is_numeral(text, 16) {
        u32::from_str_radix(text, 16).ok()
    } else {
        None
    }
}

// A decimal number, or the bit pattern of a binary32 after `0x`.
pub(crate) fn amount(text: &str) -> Option<f32>
    ensures { result ≡ amount_of text.now }
{
    match text.strip_prefix("0x") {
        Some(digits) => bit_pattern(digits).map(|bits| f32_from_bits_with_nan(bits)),
        None => text.parse::<f32>().ok(),
    }
}
