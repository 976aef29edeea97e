// The lowest held word that is due above the mark: looked for from the low end of its span.
ghost use Rattle.std.specs.Prelude.{◌≡◌, ◌<◌, ◌≤◌, true, IfSome};
ghost use Rattle.below.specs.Below.{first_below, found};
ghost use Rattle.views.specs.Sets.{has};
ghost use Rattle.marks.specs.Held.{held_at};
ghost use Rattle.agreement.specs.Agreement.{agrees, cut_in};
ghost use Rattle.agreement.specs.Due.{lowest_due as lowest_due_of};
ghost use Rattle.agreement.specs.Spans.{apt as apt_of, floor as floor_of, spanned};

use crate::{Agreement, Row};
use marks::Held;
use views::sets;

// Whether words of r may be due from p to q at all.
#[tactic(auto, using(below::proofs::Tests::picks, crate::proofs::Due::member_low), unfolding(crate::specs::Spans::apt))]
fn apt(set: u8, members: u8, p: u8, q: u8, r: u8) -> bool
    ensures value { result ≡ apt_of (has set) members p q r }
    ensures members { result ≡ true → (p < 8) × (q < 8) × (r < 8) }
{
    sets::contains(members, r)
        && !sets::contains(set, r)
        && sets::contains(set, p)
        && sets::contains(set, q)
        && p != q
}

// The first k from low on and below high with word k + 1 held. A loop: `find` over the range leaves a goal that no short answer closes.
#[tactic(auto, using(crate::proofs::Found::span_none, crate::proofs::Found::span_found, crate::proofs::Found::span_more, crate::proofs::Found::span_end))]
fn first_held(held: Held, low: u8, high: u8) -> Option<u8>
    requires { high ≤ 128 }
    ensures { result ≡ found 128 (first_below (spanned low high (held_at held)) 128) }
{
    for k in low..high {
        if held.holds(k + 1) {
            return Some(k);
        }
    }
    None
}

impl Agreement {
    // Up to here no word of r is due from p to q above the mark.
    #[tactic(auto, using(crate::proofs::Found::floor_is))]
    fn floor(&self, p: u8, rows: &[Row; 8], q: u8, r: u8) -> u8
        requires p_bound { p < 8 }
        requires q_bound { q < 8 }
        requires r_bound { r < 8 }
        ensures { result ≡ floor_of (agrees self.now) (cut_in self.now) p rows.now q r }
    {
        let low = self.lowers(p).count(r);
        low.max(self.cuts[q as usize].count(r))
            .max(rows[q as usize].marks[r as usize])
    }

    // The lowest held word of r that is due from p to q above the mark, less 1.
    #[tactic(auto, using(crate::proofs::Found::lowest_is, crate::proofs::Found::lowest_out))]
    pub fn lowest_due(
        &self,
        members: u8,
        p: u8,
        rows: &[Row; 8],
        held: Held,
        q: u8,
        r: u8,
    ) -> Option<u8>
        ensures value { result ≡ found 128 (lowest_due_of (agrees self.now) (cut_in self.now) members p rows.now (held_at held) q r) }
        ensures within { IfSome result (λ k. k < 128) }
    {
        if !apt(self.set, members, p, q, r) {
            return None;
        }
        let high = self.cuts[p as usize].count(r).min(128);
        first_held(held, self.floor(p, rows, q, r), high)
    }
}
