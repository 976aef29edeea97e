// One pass over the members: who is in T, with what cut, and whether a named record is missing.
ghost use Rattle.std.specs.Prelude.{◌≡◌};
ghost use Rattle.agreement.specs.Agreement.{agreement};
ghost use Rattle.agreement.specs.Pass.{part_of};

use crate::{Agreement, rising};
use records::Records;
use views::{Cut, View, sets};

// What the pass finds of one member.
#[derive(Clone, Copy)]
enum Part {
    // No member of both views, or one whose named record carries another view than the current one.
    Outside,
    // A member of both views whose named record is not held.
    Unnamed,
    // In T, with this cut.
    Agrees(Cut),
}

impl Part {
    // The part of m.
    #[tactic(auto, using(below::proofs::Tests::picks), unfolding(crate::specs::Pass::part_of, crate::specs::Named::in_both, crate::specs::Named::named_held, crate::specs::Named::named))]
    fn of(current: View, membership: View, records: &Records, m: u8) -> Part
        ensures { result ≡ part_of current membership records.now m }
    {
        if !sets::contains(current.set, m) || !sets::contains(membership.set, m) {
            return Part::Outside;
        }
        match records.find(m, membership.start(m)) {
            None => Part::Unnamed,
            Some(x) => if x.view.same(current) {
                Part::Agrees(x.cut)
            } else {
                Part::Outside
            },
        }
    }
}

// What the members of both views agree on, by the records held.
#[tactic(auto, using(crate::proofs::Going::going_end))]
pub fn agree(current: View, membership: View, records: &Records) -> Agreement
    ensures { result ≡ agreement current membership records.now }
{
    let mut a = Agreement {
        cuts: [Cut::none(); 8],
        counts: Cut::none(),
        set: 0,
        unnamed: false,
    };
    for m in 0..8u8 {
        match Part::of(current, membership, records, m) {
            Part::Outside => {}
            Part::Unnamed => a.unnamed = true,
            Part::Agrees(cut) => {
                a.cuts[m as usize] = cut;
                a.counts = rising::higher(a.counts, cut);
                a.set = sets::joined(a.set, sets::only(m));
            }
        }
    }
    a
}
