//! The lines of a record that are due to a desk.
ghost use Rattle.std.specs.Prelude.{◌≡◌, position};
ghost use Rattle.batch_wire.specs.EventLine.{is_space};
ghost use Rattle.batch_serve.specs.Dues.{after_word, has_word, is_due, is_order, is_reply, is_seen};

use batch_text::Name;

/// Whether a line of the record's text is due to a desk. Of the answers to its own lines the replies are, and of all answers the moves that
/// it sees. A console, which has no unit, sees each move, and the link of a unit the starts and sends of that unit.
// claim: due to a desk
pub fn is_due(line: &[u8], is_own: bool, unit: &Option<Name>) -> bool
    ensures { result ≡ is_due is_own unit.now line.now }
{
    if line.starts_with(b"#") {
        return false;
    }
    if is_reply(line) {
        is_own
    } else {
        is_seen(line, unit)
    }
}

fn is_reply(line: &[u8]) -> bool
    ensures { result ≡ is_reply line.now }
{
    line.starts_with(b"created ") || line.starts_with(b"ok ") || line.starts_with(b"refused ")
}

/// Whether a console, or the link of the unit, sees a move.
fn is_seen(line: &[u8], unit: &Option<Name>) -> bool
    ensures { result ≡ is_seen unit.now line.now }
{
    match unit {
        None => true,
        Some(unit) => is_order(line) && has_word(unit_of_order(line), unit.text().as_bytes()),
    }
}

fn is_order(line: &[u8]) -> bool
    ensures { result ≡ is_order line.now }
{
    line.starts_with(b"start ") || line.starts_with(b"send ")
}

/// The rest of a start or a send line, from its unit (the fourth word) on.
fn unit_of_order(line: &[u8]) -> &[u8]
    ensures { result.now ≡ after_word (after_word (after_word line.now)) }
{
    after_word(after_word(after_word(line)))
}

/// The text behind the first space; empty if there is none.
#[tactic(auto, using(crate::proofs::DueAnswers::after_none, crate::proofs::DueAnswers::after_some))]
fn after_word(text: &[u8]) -> &[u8]
    ensures { result.now ≡ after_word text.now }
{
    match first_space(text) {
        Some(at) => &text[at + 1..],
        None => &[],
    }
}

fn first_space(text: &[u8]) -> Option<usize>
    ensures { result ≡ position is_space text.now }
{
    text.iter().position(|byte| *byte == b' ')
}

/// Whether the text begins with the word and a space.
fn has_word(text: &[u8], word: &[u8]) -> bool
    ensures { result ≡ has_word word.now text.now }
{
    text.starts_with(word) && text[word.len()..].starts_with(b" ")
}
