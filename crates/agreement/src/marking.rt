// The forward marks: eight rows, one a destination, of eight marks, one a sender.
ghost use Rattle.std.specs.Prelude.{◌≡◌, get_or, set, replicate};
ghost use Rattle.agreement.specs.Due.{no_marks};

use crate::Row;

// No mark: every one is 0.
pub fn no_rows() -> [Row; 8]
    ensures { result ≡ replicate 8 no_marks }
{
    [Row { marks: [0; 8] }; 8]
}

impl Row {
    // Sets the mark for sender r to i; nothing changes for r above 7.
    #[tactic(auto, using(crate::proofs::Rows::mark_past))]
    fn raise(&mut self, r: u8, i: u8)
        ensures { self.new ≡ record { marks = set self.old.marks r i } }
    {
        if r < 8 {
            self.marks[r as usize] = i;
        }
    }
}

// Sets destination q's mark for sender r to i; nothing changes for q or r above 7.
#[tactic(auto, using(crate::proofs::Rows::row_past, crate::proofs::Rows::row_set))]
pub fn raise(rows: &mut [Row; 8], q: u8, r: u8, i: u8)
    ensures { rows.new ≡ set rows.old q (record { marks = set (get_or rows.old q no_marks).marks r i }) }
{
    if q < 8 {
        rows[q as usize].raise(r, i);
    }
}
