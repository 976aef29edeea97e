// Sets, views and cuts, and the tests that every layer above makes on them. Each test takes any values, and its promise fixes its answer.
#![tactic(auto)]

mod counts;
pub mod sets;
mod starts;

pub use starts::starts_zero;

// The start numbers stand first: the id and the set then share the last words.
#[repr(C)]
#[derive(Clone, Copy, PartialEq, Eq)]
pub struct View {
    pub starts: [u32; 8],
    pub id: u32,
    pub set: u8,
}

#[repr(C)]
#[derive(Clone, Copy, PartialEq, Eq)]
pub struct Cut {
    pub counts: [u8; 8],
}
