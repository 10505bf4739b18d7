//! Taking the texts of documents that are read.
ghost use Rattle.std.specs.Prelude.{◌++◌, ◌∷◌, [], List, ℕ, ⊤};
ghost use Rattle.batch_journal.specs.Digests.{HasTaken};

use batch_journal::DocumentsDigest;

/// A taker of the texts of documents, each once its document is read.
pub(crate) trait TextTaker {
    // It has taken these texts.
    ghost has_taken: { Self → List (List ℕ) → Type 0 };

    /// Takes the text of the next document.
    fn take_text(&mut self, text: &[u8])
        ensures { (texts : List (List ℕ)) → has_taken self.old texts → has_taken self.new (texts ++ text.now ∷ []) };
}

impl TextTaker for DocumentsDigest {
    ghost has_taken = { HasTaken };

    fn take_text(&mut self, text: &[u8]) {
        self.push_document(text);
    }
}

/// Takes no text, for callers that need no digest.
#[derive(Drop)]
pub(crate) struct NoTaker;

impl TextTaker for NoTaker {
    ghost has_taken = { λ _ _. ⊤ };

    fn take_text(&mut self, _text: &[u8]) {}
}
