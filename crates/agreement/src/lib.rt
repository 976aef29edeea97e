// What the members of both views agree on: T, the agreed counts, and the words that are due, by the records held.
// Each function is total and its promise fixes its answer.
#![tactic(auto)]

use views::Cut;

mod agreeing;
mod lowest;
mod marking;
mod owing;
mod rising;

pub use agreeing::agree;
pub use marking::{no_rows, raise};

// The forward marks of one destination, by sender.
#[repr(C)]
#[derive(Clone, Copy)]
pub struct Row {
    pub marks: [u8; 8],
}

// T and its records' cuts, found in one pass: a member outside T has no cut here. counts is the agreed count of each sender;
// unnamed is whether a named record of a member of both views is not held. Its fields are the definition's (`agreement`).
#[derive(Clone, Copy)]
pub struct Agreement {
    pub cuts: [Cut; 8],
    pub counts: Cut,
    pub set: u8,
    pub unnamed: bool,
}
