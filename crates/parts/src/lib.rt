// Tests on parts of an end-point, and what its steps make of them. Each function is total and its promise fixes its answer.
#![tactic(auto)]

mod counts;
mod others;
mod words;

pub use counts::{counts_least, cut_of, given_fit, rows_fit};
pub use others::others_fit;
pub use words::{other_word, word_at};
