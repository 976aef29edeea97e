// Whether a due word has not been forwarded: one comparison for each destination and sender, not one for each word.
ghost use Rattle.std.specs.Prelude.{◌≡◌, ◌<◌, not, cond, ◌&&◌, min, leb, get_or};
ghost use Rattle.below.specs.Below.{all_below};
ghost use Rattle.views.specs.Sets.{has};
ghost use Rattle.views.specs.Cuts.{no_cut, count_of};
ghost use Rattle.agreement.specs.Agreement.{agrees, cut_in};
ghost use Rattle.agreement.specs.Due.{owes as owes_of};
ghost use Rattle.agreement.specs.Spans.{highs as highs_of, none_to};

use crate::{Agreement, Row, rising};
use views::{Cut, sets};

// A sender's count where words of it may be due, no more than 128; 0 elsewhere.
fn high(set: u8, members: u8, r: u8, count: u8) -> u8
    ensures { result ≡ cond (has members r && not (has set r)) (min count 128) 0 }
{
    if sets::contains(members, r) && !sets::contains(set, r) {
        count.min(128)
    } else {
        0
    }
}

fn highs(set: u8, members: u8, own: Cut) -> Cut
    ensures { result ≡ highs_of set members own }
{
    let mut counts = [0; 8];
    for r in 0..8u8 {
        counts[r as usize] = high(set, members, r, own.counts[r as usize]);
    }
    Cut { counts }
}

// Whether no count of a exceeds the same sender's of b. The loop has no way out but its end: a few vector instructions.
#[tactic(auto, using(below::proofs::All::alls), unfolding(views::specs::Cuts::count_of))]
fn none_above(a: Cut, b: Cut) -> bool
    ensures { result ≡ all_below (λ r. leb (count_of a r) (count_of b r)) 8 }
{
    let mut ok = true;
    for r in 0..8 {
        ok &= a.counts[r] <= b.counts[r];
    }
    ok
}

impl Agreement {
    // Whether no word is due from p to q above q's marks, by the counts that p's words must exceed, and p's own.
    #[tactic(auto, using(below::proofs::Tests::picks, crate::proofs::Found::none_over, crate::proofs::Rows::read_any), unfolding(crate::specs::Spans::none_to))]
    fn none_to(&self, p: u8, low: Cut, high: Cut, q: u8, row: Row) -> bool
        requires { q < 8 }
        ensures { result ≡ none_to self.now.set p low high q (get_or self.now.cuts q no_cut) row }
    {
        if p == q || !sets::contains(self.set, q) {
            return true;
        }
        // By way of a local: a literal that takes an array out of a field gets no proof.
        let counts = row.marks;
        let marks = Cut { counts };
        let floor = rising::higher(rising::higher(low, self.cuts[q as usize]), marks);
        none_above(high, floor)
    }

    // Whether a word is due from p that has not been forwarded: members is the current view's set, rows are p's forward marks.
    #[tactic(auto, using(below::proofs::All::alls, crate::proofs::Due::owes_none, crate::proofs::Due::member_low, crate::proofs::Found::owes_some, crate::proofs::Rows::read_any), unfolding(crate::specs::Agreement::agrees))]
    pub fn owes(&self, members: u8, p: u8, rows: &[Row; 8]) -> bool
        ensures { result ≡ owes_of (agrees self.now) (cut_in self.now) members p rows.now }
    {
        if !sets::contains(self.set, p) {
            return false;
        }
        let high = highs(self.set, members, self.cuts[p as usize]);
        let low = self.lowers(p);
        let mut none = true;
        for q in 0..8u8 {
            none &= self.none_to(p, low, high, q, rows[q as usize]);
        }
        !none
    }
}
