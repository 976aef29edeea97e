// The six kinds of message in bytes: what a message is, the reader and the writer, by value and by a field area. Each public function takes any values, and its promise fixes its answer and every lent byte.
#![tactic(auto)]

ghost use Rattle.std.specs.Prelude.{◌≡◌};

use views::{Cut, View};

mod codec;
mod fit;
mod formed;
mod get;
mod give;
mod kind;
mod made;
mod put;
mod reader;
mod take;
mod writer;

pub use codec::{length_of, read, write};
pub use kind::Kind;
pub use reader::read_fields;
pub use writer::write_fields;

// What a kind does not have is 0. The kind is a number here, since a field of the C struct takes every value; `named_kind` names it.
#[repr(C)]
#[derive(Clone, Copy)]
pub struct Message {
    pub view: View,
    pub word: u64,
    pub number: u32,
    pub cut: Cut,
    pub kind: u8,
    pub set: u8,
    pub sender: u8,
    pub index: u8,
}

// Why nothing is read or written.
#[derive(Clone, Copy, Debug, PartialEq, Eq)]
pub enum Refusal {
    // The field area has not just 24 places.
    NotFields,
    // The bytes, the fields or the value are no message.
    Malformed,
    // The byte area is too short for the message.
    NoRoom,
}

// A message as C has it, a number a place: 0 kind, 1 number, 2 set, 3 sender, 4 index, 5 word, 6 and 7 the view's id and set, 8 to 15 its start numbers, 16 to 23 the cut.
type Fields = [u64; 24];
