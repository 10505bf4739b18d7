//! The digest of the documents that a journal is of.
ghost use Rattle.std.specs.Prelude.{◌≡◌, ◌++◌, ◌∷◌, [], List, ℕ, length};
ghost use Rattle.batch_journal.specs.Digests.{HasTaken, IsPlain, digits_of};
ghost use Rattle.hex.specs.Hex.{encode_lower};
ghost use Rattle.batch_journal.specs.Lines.{IsLine};

use itoa::Buffer;
use sha2::{Digest, Sha256};

/// The SHA-256 of documents: 64 lower-case hexadecimal digits.
#[derive(Clone, Copy)]
pub struct Digits {
    text: [u8; 64],
    ghost plain: { IsPlain text },
}

impl Digits {
    /// The digits.
    // claim: the documents' digits
    pub fn text(self) -> [u8; 64]
        ensures digits { result ≡ self.text }
        ensures line { IsLine result }
    {
        self.text
    }
}

/// Takes the texts of documents one after the other: of each its length in decimal, a line feed, and its bytes.
// claim: the documents' digits
#[derive(Drop)]
pub struct DocumentsDigest {
    hasher: Sha256,
}

impl DocumentsDigest {
    /// The digest of no document.
    pub fn new() -> DocumentsDigest
        ensures { HasTaken result [] }
    {
        DocumentsDigest {
            hasher: Sha256::new(),
        }
    }

    /// Takes the text of one document more.
    pub fn push_document(&mut self, text: &[u8])
        ensures { (texts : List (List ℕ)) → HasTaken self.old texts → HasTaken self.new (texts ++ text.now ∷ []) }
    {
        let mut length = Buffer::new();
        self.hasher.update(length.format(text.len()).as_bytes());
        self.hasher.update(b"\n");
        self.hasher.update(text);
    }

    /// The digits of all of them.
    pub fn digits(self) -> Digits
        ensures { (texts : List (List ℕ)) → HasTaken self texts → result.text ≡ digits_of texts }
    {
        let text = hex_digits(&self.hasher.finalize());
        Digits { text }
    }
}

/// The digits of a digest.
fn hex_digits(digest: &[u8]) -> [u8; 64]
    requires { length digest.now ≡ 32 }
    ensures digits { result ≡ encode_lower digest.now }
    ensures plain { IsPlain result }
{
    let mut digits = [0u8; 64];
    let _written = hex::encode_to_slice(digest, &mut digits);
    digits
}
