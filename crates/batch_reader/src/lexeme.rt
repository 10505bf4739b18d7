//! The token that is being read.
ghost use Rattle.std.specs.Prelude.{◌≡◌, List, ℕ};
ghost use Rattle.batch_reader.specs.ChartMachine.{continues};
ghost use Rattle.batch_reader.specs.ChartView.{lexeme_view};

use batch_text::is_name_byte;

/// The next token as far as it has been read: a word or a number by the offset where it begins.
#[derive(Clone, Copy)]
pub enum Lexeme {
    Nothing,
    Letters(usize),
    Digits(usize),
    Less,
    More,
    Slash,
}

impl Lexeme {
    /// Whether the token goes on with the byte.
    pub fn continues(self, byte: u8) -> bool
        ensures { (text : List ℕ) (place : ℕ) → result ≡ continues (lexeme_view text place self) byte }
    {
        match self {
            Lexeme::Nothing => false,
            Lexeme::Letters(_) => is_name_byte(byte),
            Lexeme::Digits(_) => byte.is_ascii_digit(),
            Lexeme::Less | Lexeme::More | Lexeme::Slash => byte == b'=',
        }
    }
}
