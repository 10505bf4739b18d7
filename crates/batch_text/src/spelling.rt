//! The bytes of a name, and where it keeps them.
ghost use Rattle.std.specs.Prelude.{◌≡◌, ◌+◌, ◌<◌, ◌≤◌, ◌++◌, length, nat_eq, slice_index, take, true, false, IfOk, IfSome};
ghost use Rattle.std.specs.Cmp.Lexicographic.{pointwise};
ghost use Rattle.std.specs.List.{list_all};
ghost use Rattle.batch_text.specs.NameText.{is_name_byte};
ghost use Rattle.batch_text.specs.Spelling.{letters, IsWithinRoom};

use crate::name::{MAX_NAME_LEN, is_name_byte};
use std::alloc::{AllocError, Global};

/// The most bytes that a name keeps inside itself: its 16 bytes but for a tag and a length.
const MAX_SHORT_LEN: usize = 14;

/// The bytes of a name: inside itself if they are few, and otherwise on the heap. Those past a short name's length are zeroes,
/// and those past a long one's mean nothing.
#[derive(Drop)]
pub(crate) enum Spelling {
    Short {
        len: u8,
        bytes: [u8; MAX_SHORT_LEN],
    },
    Long {
        len: u8,
        bytes: Box<[u8; MAX_NAME_LEN]>,
    },
}

impl Spelling {
    /// The spelling of these bytes. Only a long name takes memory.
    pub(crate) fn new(alloc: Global, text: &[u8]) -> Result<Spelling, AllocError>
        requires { length text.now ≤ MAX_NAME_LEN }
        ensures letters { IfOk result (λ spelling. letters spelling ≡ text.now) }
        ensures within_room { IfOk result (λ spelling. IsWithinRoom spelling) }
    {
        let len = text.len() as u8;
        if text.len() <= MAX_SHORT_LEN {
            let mut bytes = [0; MAX_SHORT_LEN];
            bytes[..text.len()].copy_from_slice(text);
            Ok(Spelling::Short { len, bytes })
        } else {
            let mut bytes = [0; MAX_NAME_LEN];
            bytes[..text.len()].copy_from_slice(text);
            Ok(Spelling::Long {
                len,
                bytes: Box::new(alloc, bytes)?,
            })
        }
    }

    /// The same spelling, with memory of its own if it is long.
    #[inline(always)]
    pub(crate) fn copied(&self, alloc: Global) -> Result<Spelling, AllocError>
        requires { IsWithinRoom self.now }
        ensures letters { IfOk result (λ copy. letters copy ≡ letters self.now) }
        ensures within_room { IfOk result (λ copy. IsWithinRoom copy) }
    {
        match self {
            Spelling::Short { len, bytes } => Ok(Spelling::Short {
                len: *len,
                bytes: *bytes,
            }),
            Spelling::Long { len, bytes } => Ok(Spelling::Long {
                len: *len,
                bytes: Box::new(alloc, **bytes)?,
            }),
        }
    }

    /// The bytes.
    #[inline(always)]
    pub(crate) fn bytes(&self) -> &[u8]
        requires { IsWithinRoom self.now }
        ensures { result.now ≡ letters self.now }
    {
        match self {
            Spelling::Short { len, bytes } => &bytes[..*len as usize],
            Spelling::Long { len, bytes } => &bytes[..*len as usize],
        }
    }

    /// The spelling of the longest front of the bytes that may stand in a name, and its length. None if no byte follows it, or it is long.
    #[inline(always)]
    pub(crate) fn read_front(bytes: &[u8]) -> Option<(Spelling, usize)>
        ensures within { IfSome result (λ front. front.1 < length bytes.now) }
        ensures letters { IfSome result (λ front. letters front.0 ≡ take front.1 bytes.now) }
        ensures within_room { IfSome result (λ front. IsWithinRoom front.0) }
        ensures spelled { IfSome result (λ front. list_all is_name_byte (take front.1 bytes.now) ≡ true) }
        ensures longest { IfSome result (λ front. is_name_byte (slice_index bytes.now front.1) ≡ false) }
    {
        let mut room = [0; MAX_SHORT_LEN];
        for (i, byte) in bytes.iter().enumerate() {
            if !is_name_byte(*byte) {
                return Some((
                    Spelling::Short {
                        len: i as u8,
                        bytes: room,
                    },
                    i,
                ));
            }
            if i == MAX_SHORT_LEN {
                return None;
            }
            room[i] = *byte;
        }
        None
    }

    /// Puts the bytes into a text from `at` on, and returns their end. What is behind them may change: the room is copied whole, since its
    /// length is a constant.
    #[inline(always)]
    pub(crate) fn put(&self, text: &mut [u8], at: usize) -> usize
        requires within { IsWithinRoom self.now }
        requires room { at + MAX_NAME_LEN ≤ length text.old }
        ensures end { result ≡ at + length (letters self.now) }
        ensures put { take result text.new ≡ take at text.old ++ letters self.now }
    {
        match self {
            Spelling::Short { len, bytes } => {
                // A copy shares no bytes with the text, so the compiler moves it without a test.
                let room = *bytes;
                text[at..at + MAX_SHORT_LEN].copy_from_slice(&room);
                at + *len as usize
            }
            Spelling::Long { len, bytes } => {
                text[at..at + MAX_NAME_LEN].copy_from_slice(&bytes[..]);
                at + *len as usize
            }
        }
    }

    /// Whether the bytes are the same. Of two short names all of their room is compared, since its length is a constant.
    #[inline(always)]
    #[tactic(auto, using(crate::proofs::ShortNames::same_with_room))]
    pub(crate) fn is_same(&self, other: &Spelling) -> bool
        requires { IsWithinRoom self.now × IsWithinRoom other.now }
        ensures { result ≡ pointwise nat_eq (letters self.now) (letters other.now) }
    {
        match (self, other) {
            (
                Spelling::Short { len, bytes },
                Spelling::Short {
                    len: other_len,
                    bytes: other_bytes,
                },
            ) => (len == other_len) & is_same_room(bytes, other_bytes),
            _ => self.bytes() == other.bytes(),
        }
    }
}

/// Whether the bytes are the same. They are compared as two numbers, which share two bytes: the array's own `==` takes many more steps.
#[inline(always)]
#[tactic(auto, using(crate::proofs::ShortNames::same_by_words))]
fn is_same_room(room: &[u8; MAX_SHORT_LEN], other: &[u8; MAX_SHORT_LEN]) -> bool
    ensures { result ≡ pointwise nat_eq room.now other.now }
{
    match (
        room.first_chunk(),
        room.last_chunk(),
        other.first_chunk(),
        other.last_chunk(),
    ) {
        (Some(first), Some(last), Some(other_first), Some(other_last)) => {
            is_same_word(*first, *other_first) & is_same_word(*last, *other_last)
        }
        // Never: the room is longer than a word.
        _ => room == other,
    }
}

#[inline(always)]
fn is_same_word(word: [u8; 8], other: [u8; 8]) -> bool
    ensures { result ≡ pointwise nat_eq word other }
{
    u64::from_le_bytes(word) == u64::from_le_bytes(other)
}
