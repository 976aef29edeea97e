// The four slots of the word area: which view each is for, and the marks of the words held in it. Each function takes any values, and its promise fixes its answer.
#![tactic(auto)]

use marks::Marks;
use views::View;

mod fitting;
mod keeping;
mod search;
mod spending;

pub use search::place;
pub use spending::Standing;

// used is 1 where the slot is for this view, 0 where it is free: a number, as the C header has it.
#[repr(C)]
#[derive(Clone, Copy)]
pub struct Tag {
    pub view: View,
    pub used: u8,
}

// Tags apart from marks: finding a slot reads the tags alone.
#[repr(C)]
#[derive(Clone, Copy)]
pub struct Slots {
    pub tags: [Tag; 4],
    pub marks: [Marks; 4],
}
