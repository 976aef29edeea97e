// The sync records that an end-point holds: up to four of each sender, oldest first. Each function is total and its promise fixes its answer.
#![tactic(auto)]

use views::{Cut, View};

mod finding;
mod fitting;
mod storing;

#[repr(C)]
#[derive(Clone, Copy)]
pub struct Record {
    pub view: View,
    pub cut: Cut,
    pub number: u32,
}

// Record k of sender r stands at r * 4 + k; of each sender the first so many count. Arrays with counts beside them: C's layout (include/nhuoseng.h), and no heap.
#[repr(C)]
#[derive(Clone, Copy)]
pub struct Records {
    pub held: [Record; 32],
    pub counts: [u8; 8],
}
