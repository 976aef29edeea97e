// A field's value: a number, a set of members, a view, bytes.
use crate::fault::Fault;
use views::{View, sets};

// Decimal, or hexadecimal after 0x. A sign is no digit, so this is not `parse`.
fn word(field: &[u8]) -> Option<u64> {
    let (digits, base) = match field.strip_prefix(b"0x") {
        Some(digits) => (digits, 16),
        None => (field, 10),
    };
    if digits.is_empty() {
        return None;
    }
    let mut value = 0u64;
    for &b in digits {
        let digit = char::from(b).to_digit(base)?;
        value = value
            .checked_mul(u64::from(base))?
            .checked_add(u64::from(digit))?;
    }
    Some(value)
}

// A number that its type holds: a member's, a start number, a word.
pub(crate) fn number<N: TryFrom<u64>>(field: &[u8]) -> Option<N>
where
    N::Error: Drop,
{
    N::try_from(word(field)?).ok()
}

// The digit of a member and nothing else.
fn member(field: &[u8]) -> Option<u8> {
    match field {
        [digit @ b'0'..=b'7'] => Some(*digit - b'0'),
        _ => None,
    }
}

// As {0,2,5}.
pub(crate) fn set(field: &[u8]) -> Option<u8> {
    let inside = field.strip_prefix(b"{")?.strip_suffix(b"}")?;
    if inside.is_empty() {
        return Some(0);
    }
    let mut set = 0;
    for digit in inside.split(|&b| b == b',') {
        set = sets::joined(set, sets::only(member(digit)?));
    }
    Some(set)
}

// An id, a set and eight start numbers.
pub(crate) fn view(id: &[u8], members: &[u8], starting: &[&[u8]]) -> Option<View> {
    let id = number(id)?;
    let set = set(members)?;
    let mut starts = [0u32; 8];
    for (start, field) in starts.iter_mut().zip(starting) {
        *start = number(field)?;
    }
    Some(View { starts, id, set })
}

// How many digits the room has place for.
const DIGITS: usize = 128;

// Two digits a byte, or - for none. What the room has no place for is checked, and left out: a longer message is no message, and a full room is none either.
pub(crate) fn bytes<'r>(field: &[u8], room: &'r mut [u8; 64]) -> Result<&'r [u8], Fault> {
    let digits = if field == b"-".as_slice() {
        b"".as_slice()
    } else {
        field
    };
    let (kept, beyond) = digits.split_at(digits.len().min(DIGITS));
    if beyond.len() % 2 == 1 || !beyond.iter().all(|b| b.is_ascii_hexdigit()) {
        return Err(Fault::Bytes);
    }
    let bytes = &mut room[..kept.len() / 2];
    hex::decode_to_slice(kept, bytes).map_err(|_| Fault::Bytes)?;
    Ok(bytes)
}
