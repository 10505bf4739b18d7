//! The numbers of a place, put one after the other.
ghost use Rattle.std.specs.Prelude.{◌≡◌, ◌≤◌, ◌+◌, ◌++◌, codes, decimal, length, take};

use itoa::Buffer;

/// The greatest length of a number of a place, with the dot before it.
pub const MAX_STEP_LEN: usize = 6;

/// Appends a dot and a number to the text that ends at `at`, and returns the new end.
pub fn put_step(text: &mut [u8], at: usize, number: u16) -> usize
    requires { at + 6 ≤ length text.old }
    ensures end { (at ≤ result) × (result ≤ at + 6) }
    ensures put { take result text.new ≡ take at text.old ++ (codes "." ++ decimal number) }
{
    text[at] = b'.';
    put_number(text, at + 1, number)
}

/// Appends a number to the text that ends at `at`, and returns the new end.
#[tactic(auto, using(crate::proofs::Numbers::digit_put))]
pub fn put_number(text: &mut [u8], at: usize, number: u16) -> usize
    requires { at + 5 ≤ length text.old }
    ensures end { (at ≤ result) × (result ≤ at + 5) }
    ensures put { take result text.new ≡ take at text.old ++ decimal number }
{
    if number < 10 {
        // Most numbers of deep places have one digit.
        text[at] = b'0' + number as u8;
        return at + 1;
    }
    let mut buffer = Buffer::new();
    let digits = buffer.format(number).as_bytes();
    let end = at + digits.len();
    text[at..end].copy_from_slice(digits);
    end
}
