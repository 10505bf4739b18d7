//! A record, compared with the due answers.
ghost use Rattle.std.specs.Prelude.{◌≡◌, ◌≢◌, ◌+◌, ◌-◌, ◌^◌, ◌<◌, ◌++◌, ◌∷◌, [], ℕ, List, MatchOption, length, min, take};
ghost use Rattle.batch_serve.specs.Replays.{BeginsText};
ghost use Rattle.batch_wire.specs.LineEnds.{EndsLine};
ghost use Rattle.batch_wire.specs.EventLine.{is_comment};
ghost use Rattle.batch_keep.specs.Comparing.{Compares, Finishes, IsCompared, IsNextLine, TakesLines};

use crate::finding::Finding;
use batch_wire::line_feed;

/// The rest of a record, and how many of its lines were taken, as far as 64 bits count them.
#[derive(Clone, Copy)]
pub(crate) struct Record<'a> {
    pub(crate) rest: &'a [u8],
    pub(crate) count: u64,
}

impl<'a> Record<'a> {
    /// A record of which nothing was taken.
    pub(crate) fn of(text: &'a [u8]) -> Record<'a>
        ensures rest { result.rest.now ≡ text.now }
        ensures count { result.count ≡ 0 }
    {
        Record {
            rest: text,
            count: 0,
        }
    }

    /// The number of the next line.
    fn next_number(&self) -> u64
        ensures { result ≡ min (self.now.count + 1) (2 ^ 64 - 1) }
    {
        self.count.saturating_add(1)
    }

    /// Takes the line that ends there.
    pub(crate) fn take_line(&mut self, at: usize)
        requires { EndsLine at self.old.rest.now }
        ensures takes { TakesLines self.old.count self.old.rest.now (take at self.old.rest.now ∷ []) self.new.count self.new.rest.now }
        ensures shorter { length self.new.rest.now < length self.old.rest.now }
    {
        self.count = self.next_number();
        self.rest = &self.rest[at + 1..];
    }

    /// Takes the next comments, and gives the end of the line behind them, if a line feed ends it.
    pub(crate) fn next_line(&mut self) -> Option<usize>
        ensures passed { IsCompared self.old.count self.old.rest.now [] self.new.count self.new.rest.now [] }
        ensures next { IsNextLine self.new.rest.now result }
    {
        while let Some(at) = line_feed(self.rest) {
            if !is_comment(&self.rest[..at]) {
                return Some(at);
            }
            self.take_line(at);
        }
        None
    }

    /// Compares the next lines with the due text, and takes them as far as they are alike.
    pub(crate) fn compare(&mut self, due: &[u8]) -> Option<Finding>
        ensures { Compares self.old.count self.old.rest.now due.now self.new.count self.new.rest.now result }
    {
        let mut left = due;
        while !left.is_empty() {
            let Some(at) = self.next_line() else {
                return Some(Finding::EndsBefore(self.next_number()));
            };
            let Some(more) = left_behind(left, &self.rest[..at]) else {
                return Some(Finding::Differs(self.next_number()));
            };
            left = more;
            self.take_line(at);
        }
        None
    }

    /// The finding if nothing more is due.
    pub(crate) fn finish(&mut self) -> Finding
        ensures { Finishes self.old.count self.old.rest.now result }
    {
        if let Some(_at) = self.next_line() {
            return Finding::Differs(self.next_number());
        }
        if self.rest.is_empty() {
            return Finding::Agrees;
        }
        Finding::EndsBefore(self.next_number())
    }
}

/// The rest of the text behind the line and its line feed, if it begins with these.
fn left_behind<'a>(text: &'a [u8], line: &[u8]) -> Option<&'a [u8]>
    ensures { MatchOption result (BeginsText (line.now ++ 10 ∷ []) text.now → ⊥) (λ left. text.now ≡ line.now ++ 10 ∷ left.now) }
{
    behind(behind(text, line)?, b"\n")
}

/// The rest of the text behind this prefix, if it begins with it.
fn behind<'a>(text: &'a [u8], front: &[u8]) -> Option<&'a [u8]>
    ensures { MatchOption result ((rest : List ℕ) → text.now ≢ front.now ++ rest) (λ rest. text.now ≡ front.now ++ rest.now) }
{
    text.strip_prefix(front)
}

fn is_comment(line: &[u8]) -> bool
    ensures { result ≡ is_comment line.now }
{
    line.starts_with(b"#")
}
