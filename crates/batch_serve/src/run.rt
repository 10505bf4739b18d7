//! Runs of lines, and of their answers.
ghost use Rattle.std.specs.Prelude.{◌≡◌};

use std::marker::Model;

/// Whole lines that one desk sent, or the answers to them.
#[derive(Drop)]
pub struct Run {
    desk: usize,
    text: Vec<u8>,
}

impl Model for Run {
    ghost use Rattle.batch_serve.specs.Runs as runs;

    ghost Value = { runs.Run };

    ghost view = { λ run. record { desk = run.desk; text = run.text.items } };
}

impl Run {
    /// A text of the desk at this place.
    pub fn new(desk: usize, text: Vec<u8>) -> Run
        ensures { result ≡ record { desk = desk; text = text.items } }
    {
        Run { desk, text }
    }

    /// The desk's place among all.
    pub fn desk(&self) -> usize
        ensures { result ≡ self.now.desk }
    {
        self.desk
    }

    /// The text.
    pub fn text(&self) -> &[u8]
        ensures { result.now ≡ self.now.text }
    {
        &self.text
    }
}
