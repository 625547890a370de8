// The words of a line: numbers, bytes and slices.
ghost use Rattle.std.specs.Prelude.{◌+◌, ◌≤◌, ◌<◌, length, IfSome};

use crate::entry::{Entry, fill};
use arrayvec::ArrayVec;
use std::num::NonZeroU64;

// The first N parts of a text whose parts are parted by b.
pub fn parts<const N: usize>(text: &[u8], b: u8) -> ArrayVec<&[u8], N> {
    let mut parts = ArrayVec::new();
    for part in text.split(|c| *c == b) {
        if parts.try_push(part).is_err() {
            break;
        }
    }
    parts
}

// A decimal number of at most 64 bits.
pub fn decimal(text: &[u8]) -> Option<u64> {
    if text.is_empty() {
        return None;
    }
    text.iter().try_fold(0u64, |n, b| {
        let digit = char::from(*b).to_digit(10)?;
        n.checked_mul(10)?.checked_add(u64::from(digit))
    })
}

// What a hex digit counts. `char::to_digit` knows `A` too, which no script has.
fn digit(b: u8) -> Option<u8>
    ensures { IfSome result (λ d. d < 16) }
{
    match b {
        b'0'..=b'9' => Some(b - b'0'),
        b'a'..=b'f' => Some(b - b'a' + 10),
        _ => None,
    }
}

// At most N bytes as hex, `-` for none.
pub fn hex<const N: usize>(word: &[u8]) -> Option<ArrayVec<u8, N>> {
    let mut bytes = ArrayVec::new();
    match word {
        b"-" => return Some(bytes),
        [] => return None,
        _ => (),
    }
    for pair in word.chunks(2) {
        let [high, low] = pair else {
            return None;
        };
        bytes.try_push(16 * digit(*high)? + digit(*low)?).ok()?;
    }
    Some(bytes)
}

// `-` for no entries, LEN:SEED or LEN:SEED:LIMIT, put at the start of `room`.
pub fn slice<'a, T: Entry>(word: &[u8], room: &'a mut [T]) -> Option<&'a mut [T]>
    ensures { IfSome result (λ slice. length slice.now ≤ length room.old) }
{
    let (length, seed, limit) = match parts::<4>(word, b':').as_slice() {
        [b"-"] => (0, 0, 1),
        [length, seed] => (decimal(length)?, decimal(seed)?, T::PRIME),
        [length, seed, limit] => (decimal(length)?, decimal(seed)?, decimal(limit)?),
        _ => return None,
    };
    let limit = NonZeroU64::new(limit)?;
    let slice = room.get_mut(..length as usize)?;
    fill(slice, seed, limit);
    Some(slice)
}

// .. or entries parted by commas.
pub fn numbers<'a>(word: &[u8], room: &'a mut [u16]) -> Option<&'a mut [u16]>
    ensures { IfSome result (λ slice. length slice.now ≤ length room.old) }
{
    if matches!(word, b"-") || word.contains(&b':') {
        return slice(word, room);
    }
    let commas = word.iter().filter(|b| **b == b',').count();
    let list = room.get_mut(..=commas)?;
    for (entry, part) in list.iter_mut().zip(word.split(|b| *b == b',')) {
        *entry = u16::try_from(decimal(part)?).ok()?;
    }
    Some(list)
}
