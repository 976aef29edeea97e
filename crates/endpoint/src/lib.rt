// The end-point: its state, its thirteen steps and the batch. Every field is an integer, so every bit pattern is a value, and `sound` decides.
#![tactic(auto)]

mod answers;
mod application;
mod batches;
mod forward;
mod fresh;
mod give;
mod install;
mod membership;
mod own;
mod ready;
mod receive;
mod refusal;
mod sound;

use agreement::Row;
use messages::Message;
use records::Records;
pub use refusal::Refusal;
use slots::Slots;
use views::View;

// The change that the membership service has started: latest start number and set, whether it is open and pending, the block state.
// opened and pending are 0 or 1; block is 0 free, 1 asked, 2 blocked: numbers, as the C header has them.
#[repr(C)]
#[derive(Clone, Copy)]
pub struct Change {
    pub number: u32,
    pub set: u8,
    pub opened: u8,
    pub pending: u8,
    pub block: u8,
}

// "What an end-point remembers". told is 1 where the current view is announced. p's own entries of heard and received are no part of it.
// Its fields, their order and their layout are the C header's.
#[repr(C)]
#[derive(Clone, Copy)]
pub struct EndPoint {
    pub current: View,
    pub membership: View,
    pub heard: [View; 8],
    pub records: Records,
    pub received: [u8; 8],
    pub slots: Slots,
    pub given: [u8; 8],
    pub forwarded: [Row; 8],
    pub change: Change,
    pub me: u8,
    pub declared: u8,
    pub told: u8,
    pub passed: u8,
}

// What a step answers, as the C header has it: the end-point after it, its number (0 is accepted), and what it gives; what it does not give is blank.
#[repr(C)]
#[derive(Clone, Copy)]
pub struct Answer {
    pub ep: EndPoint,
    pub message: Message,
    pub view: View,
    pub word: u64,
    pub number: u8,
    pub set: u8,
}

// What a batch answers, as the C header has it: the end-point after it, how many single give-outs it equals, its number.
#[repr(C)]
#[derive(Clone, Copy)]
pub struct Batch {
    pub ep: EndPoint,
    pub count: u64,
    pub number: u8,
}

// Where a word stands: its slot and its index.
#[derive(Clone, Copy)]
struct Place {
    slot: u8,
    index: u8,
}
