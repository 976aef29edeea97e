// Counts by sender: against 128, against runs, against each other; and the cut that runs make. The loops of eight have no way out but their end: a few vector instructions.
ghost use Rattle.std.specs.Prelude.{true, cond, ◌≡◌, ◌≤◌, leb, get_or};
ghost use Rattle.views.specs.Sets.{has};
ghost use Rattle.marks.specs.Marks.{run_in};
ghost use Rattle.parts.specs.Counts.{row_fits, rows_fit, given_fit, at_least, cut_of};

use agreement::Row;
use marks::Marks;
use views::{Cut, sets};

fn row_fits(row: Row) -> bool
    ensures { result ≡ row_fits row }
{
    let mut ok = true;
    for mark in row.marks {
        ok &= mark <= 128;
    }
    ok
}

// Whether forward marks are at most 128.
pub fn rows_fit(rows: &[Row; 8]) -> bool
    ensures { result ≡ rows_fit rows.now }
{
    let mut ok = true;
    for &row in rows {
        ok &= row_fits(row);
    }
    ok
}

// Whether no count exceeds its run.
pub fn given_fit(given: &[u8; 8], m: &Marks) -> bool
    ensures { result ≡ given_fit given.now m.now }
{
    let mut ok = true;
    for r in 0..8u8 {
        ok &= given[r as usize] <= m.run(r);
    }
    ok
}

// Whether of each member of a set the one count is at most the other.
pub fn counts_least(set: u8, low: &[u8; 8], high: &[u8; 8]) -> bool
    ensures { result ≡ at_least set low.now high.now }
{
    let mut ok = true;
    for n in 0..8u8 {
        ok &= !sets::contains(set, n) | (low[n as usize] <= high[n as usize]);
    }
    ok
}

// A sender's count in p's own cut.
fn own_count(set: u8, m: &Marks, r: u8) -> u8
    ensures { result ≡ cond (has set r) (run_in m.now r) 0 }
{
    if sets::contains(set, r) { m.run(r) } else { 0 }
}

// The run of each member of a set, 0 for others.
pub fn cut_of(set: u8, m: &Marks) -> Cut
    ensures { result ≡ cut_of set m.now }
{
    let mut counts = [0; 8];
    for r in 0..8u8 {
        counts[r as usize] = own_count(set, m, r);
    }
    Cut { counts }
}
