//! Single words of a record.
ghost use Rattle.std.specs.Prelude.{◌≡◌, ◌==◌, ◌&&◌, true, false, length, nat_le, nat_lt, Some, None, MatchOption};
ghost use Rattle.std.specs.List.{before_first, after_first, list_all};
ghost use Rattle.batch_text.specs.PlaceText.{dotted_parts};
ghost use Rattle.batch_text.specs.NumberText.{number_of};
ghost use Rattle.batch_record.specs.RecordLine.{is_plain_number, is_plain_child, is_plain_place, has_plain_front, need_of_word, state_of_word};
ghost use Rattle.batch_record.specs.Reading.{need_told};

use batch_matrix::State;
use batch_text::{MAX_CHILD_NUMBER, MAX_PLACE_LEN, is_name, read_number};

/// The number that the word is, with no zero before another digit.
pub fn plain_number(word: &[u8]) -> Option<u64>
    ensures { MatchOption result (is_plain_number word.now ≡ false)
        (λ number. (is_plain_number word.now ≡ true) × (number ≡ number_of word.now)) }
{
    if !has_plain_front(word) {
        return None;
    }
    match read_number(word, u64::MAX) {
        Ok(number) => Some(number),
        Err(_) => None,
    }
}

fn has_plain_front(word: &[u8]) -> bool
    ensures { result ≡ has_plain_front word.now }
{
    !matches!(word, [b'0', _, ..])
}

/// Whether the word is a place, each number with no zero before another digit.
pub fn is_plain_place(word: &[u8]) -> bool
    ensures { result ≡ is_plain_place word.now }
{
    are_plain_children(word) && has_few_parts(word)
}

fn are_plain_children(word: &[u8]) -> bool
    ensures { result ≡ list_all is_plain_child (dotted_parts word.now) }
{
    word.split(|byte| *byte == b'.')
        .all(|part| is_plain_child(part))
}

fn has_few_parts(word: &[u8]) -> bool
    ensures { result ≡ nat_le (length (dotted_parts word.now)) 100 }
{
    word.split(|byte| *byte == b'.').count() <= MAX_PLACE_LEN
}

fn is_plain_child(part: &[u8]) -> bool
    ensures { result ≡ is_plain_child part.now }
{
    plain_number(part).is_some_and(|number| number <= u64::from(MAX_CHILD_NUMBER))
}

/// The need that the word names: a resource, and how many units of its capacity.
pub fn read_need(word: &[u8]) -> Option<(&[u8], u32)>
    ensures { MatchOption result (need_of_word word.now ≡ None)
        (λ need. need_of_word word.now ≡ Some (need_told need.0.now need.1)) }
{
    if is_name(word) {
        return Some((word, 1));
    }
    let (resource, units) = parted(word, b'*');
    let units = read_units(units, 1)?;
    if is_name(resource) {
        Some((resource, units))
    } else {
        None
    }
}

/// The number of units that the word is: above this number, and no more than 32 bits count.
pub fn read_units(word: &[u8], above: u64) -> Option<u32>
    ensures { MatchOption result ((is_plain_number word.now && (nat_lt above (number_of word.now) && nat_le (number_of word.now) 4294967295)) ≡ false)
        (λ units. ((is_plain_number word.now && (nat_lt above (number_of word.now) && nat_le (number_of word.now) 4294967295)) ≡ true) × (units ≡ number_of word.now)) }
{
    let number = plain_number(word)?;
    if number > above && number <= 4_294_967_295 {
        Some(number as u32)
    } else {
        None
    }
}

/// The parts of the word before and after the first byte `at`.
pub fn parted(word: &[u8], at: u8) -> (&[u8], &[u8])
    ensures front { result.0.now ≡ before_first (λ b. b == at) word.now }
    ensures behind { result.1.now ≡ after_first (λ b. b == at) word.now }
{
    for (i, byte) in word.iter().enumerate() {
        if *byte == at {
            return (&word[..i], &word[i + 1..]);
        }
    }
    (word, b"")
}

/// The state that the word names.
pub fn state_of_word(word: &[u8]) -> Option<State>
    ensures { result ≡ state_of_word word.now }
{
    if word == b"idle".as_slice() {
        Some(State::Idle)
    } else if word == b"running".as_slice() {
        Some(State::Running)
    } else if word == b"pausing".as_slice() {
        Some(State::Pausing)
    } else if word == b"paused".as_slice() {
        Some(State::Paused)
    } else if word == b"holding".as_slice() {
        Some(State::Holding)
    } else if word == b"held".as_slice() {
        Some(State::Held)
    } else if word == b"restarting".as_slice() {
        Some(State::Restarting)
    } else if word == b"stopping".as_slice() {
        Some(State::Stopping)
    } else if word == b"stopped".as_slice() {
        Some(State::Stopped)
    } else if word == b"aborting".as_slice() {
        Some(State::Aborting)
    } else if word == b"aborted".as_slice() {
        Some(State::Aborted)
    } else if word == b"complete".as_slice() {
        Some(State::Complete)
    } else {
        None
    }
}
