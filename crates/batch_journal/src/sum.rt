//! Sums of groups, each over the one before.
ghost use Rattle.std.specs.Prelude.{◌≡◌, length, take};
ghost use Rattle.hex.specs.Hex.{encode_lower};
ghost use Rattle.batch_journal.specs.Journals.{next_sum, sum_text};
ghost use Rattle.batch_journal.specs.Lines.{IsLine};

use sha2::{Digest, Sha256};

/// The sum of the last group, or that of the documents, which precedes the first one: lower-case hexadecimal digits.
#[derive(Clone, Copy)]
pub enum Sum {
    /// The SHA-256 of the documents, from the header.
    Documents([u8; 64]),
    /// The first digits of the SHA-256 of the sum before, a line feed and the group's lines.
    Group([u8; 16]),
}

impl Sum {
    /// The digits of the sum.
    // claim: a sum's digits
    pub fn as_slice(&self) -> &[u8]
        ensures { result.now ≡ sum_text self.now }
    {
        match self {
            Sum::Documents(digits) => digits,
            Sum::Group(digits) => digits,
        }
    }

    /// The sum of the group that follows, by the text of its lines.
    pub(crate) fn next(&self, text: &[u8]) -> [u8; 16]
        ensures sum { result ≡ next_sum (sum_text self.now) text.now }
        ensures line { IsLine result }
    {
        let mut hasher = Sha256::new();
        hasher.update(self.as_slice());
        hasher.update(b"\n");
        hasher.update(text);
        first_digits(&hasher.finalize())
    }
}

/// The first 16 digits of a digest.
fn first_digits(digest: &[u8]) -> [u8; 16]
    requires { length digest.now ≡ 32 }
    ensures sum { result ≡ take 16 (encode_lower digest.now) }
    ensures line { IsLine result }
{
    let mut digits = [0u8; 64];
    let _written = hex::encode_to_slice(digest, &mut digits);
    let mut sum = [0u8; 16];
    sum.copy_from_slice(&digits[..16]);
    sum
}
