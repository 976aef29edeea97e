// The reader and the writer, and the lengths.
ghost use Rattle.std.specs.Prelude.{◌≡◌, ◌≤◌, IfErr, length};
ghost use Rattle.std.proofs.lemmas.List.Edits.{sets};
ghost use Rattle.messages.specs.Kinds.{code_of};
ghost use Rattle.messages.specs.Layouts.{body, length_of};
ghost use Rattle.messages.specs.Codec.{message_at, read_of, write_number, written};
ghost use Rattle.messages.specs.Refusals.{number_of, unwritten};

use crate::get::{byte_at, cut_at, number_at, view_at, word_at};
use crate::put::{put_byte, put_cut, put_number, put_view, put_word};
use crate::{Kind, Message, Refusal};

// How many bytes a message of this kind has: 0 where the number is no kind.
pub fn length_of(kind: u8) -> u8
    ensures { result ≡ length_of kind }
{
    // By match: with map_or the proof did not close.
    match Kind::try_from(kind) {
        Ok(kind) => kind.length(),
        Err(_) => 0,
    }
}

#[tactic(auto, unfolding(crate::specs::Layouts::length_of))]
fn message_at(bytes: &[u8], kind: Kind) -> Message
    requires { length bytes.now ≡ length_of (code_of kind) }
    ensures { result ≡ message_at bytes.now (code_of kind) }
{
    match kind {
        Kind::View | Kind::MembershipView => Message::of_view(kind.into(), view_at(bytes, 1)),
        Kind::Word => Message::of_word(word_at(bytes, 1)),
        Kind::Sync => Message::of_sync(number_at(bytes, 1), view_at(bytes, 5), cut_at(bytes, 42)),
        Kind::Forward => Message::of_forward(
            byte_at(bytes, 1),
            byte_at(bytes, 2),
            view_at(bytes, 3),
            word_at(bytes, 40),
        ),
        Kind::StartChange => Message::of_start_change(number_at(bytes, 1), byte_at(bytes, 5)),
    }
}

#[tactic(auto, unfolding(crate::specs::Layouts::length_of))]
fn put_body(area: &mut [u8], m: Message, kind: Kind)
    requires named { m.kind ≡ code_of kind }
    requires room { length_of (code_of kind) ≤ length area.old }
    ensures { area.new ≡ sets area.old 1 (body m) }
{
    match kind {
        Kind::View | Kind::MembershipView => put_view(area, 1, m.view),
        Kind::Word => put_word(area, 1, m.word),
        Kind::Sync => {
            put_number(area, 1, m.number);
            put_view(area, 5, m.view);
            put_cut(area, 42, m.cut);
        }
        Kind::Forward => {
            put_byte(area, 1, m.sender);
            put_byte(area, 2, m.index);
            put_view(area, 3, m.view);
            put_word(area, 40, m.word);
        }
        Kind::StartChange => {
            put_number(area, 1, m.number);
            put_byte(area, 5, m.set);
        }
    }
}

// The message that the bytes are.
pub fn read(bytes: &[u8]) -> Result<Message, Refusal>
    ensures { result ≡ read_of bytes.now }
{
    if bytes.is_empty() {
        return Err(Refusal::Malformed);
    }
    let kind = Kind::try_from(bytes[0])?;
    if bytes.len() != usize::from(kind.length()) {
        return Err(Refusal::Malformed);
    }
    let message = message_at(bytes, kind);
    if !message.fits(kind) {
        return Err(Refusal::Malformed);
    }
    Ok(message)
}

// The message's bytes at the area's start; where it is refused, nothing is written.
pub fn write(m: Message, area: &mut [u8]) -> Result<(), Refusal>
    ensures number { number_of result ≡ write_number m area.old }
    ensures area { area.new ≡ written m area.old }
    ensures reason { IfErr result (λ e. e ≡ unwritten m) }
{
    let kind = m.named_kind()?;
    if !m.fits(kind) {
        return Err(Refusal::Malformed);
    }
    if area.len() < usize::from(kind.length()) {
        return Err(Refusal::NoRoom);
    }
    put_byte(area, 0, m.kind);
    put_body(area, m, kind);
    Ok(())
}
