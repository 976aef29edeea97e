// All that sound asks of slots.
ghost use Rattle.std.specs.Prelude.{◌≡◌, true, not, cond, ◌&&◌, eqb, leb};
ghost use Rattle.views.specs.Views.{view_ok, same};
ghost use Rattle.marks.specs.Marks.{no_gap_in};
ghost use Rattle.slots.specs.Slots.{differ_in};
ghost use Rattle.slots.specs.Spent.{spent_at};
ghost use Rattle.slots.specs.Fit.{slots_fit};

use crate::{Slots, Standing, Tag};
use marks::Marks;
use views::View;

impl Standing {
    // Whether a view is well formed and not spent: the current one is as good as it is, and not spent. good is worked out once by who tests them all:
    // in Standing it would be asked of those who do not need it.
    #[tactic(auto, using(crate::proofs::Current::kept_same))]
    fn keeps(&self, good: bool, v: View) -> bool
        requires { good ≡ view_ok self.now.current }
        ensures { result ≡ (view_ok v && not (spent_at self.now v)) }
    {
        if v.same(self.current) {
            good
        } else {
            v.well_formed() && !self.has_spent(v)
        }
    }
}

impl Tag {
    // Whether a slot with this tag and these marks is as sound asks.
    fn fits(&self, good: bool, at: &Standing, marks: &Marks) -> bool
        requires { good ≡ view_ok at.now.current }
        ensures { result ≡ (leb self.now.used 1 && cond (eqb self.now.used 1) (view_ok self.now.view && (not (spent_at at.now self.now.view) && no_gap_in marks.now at.now.me)) true) }
    {
        if self.used != 1 {
            return self.used == 0;
        }
        at.keeps(good, self.view) && marks.has_no_gap(at.me)
    }

    // Whether both are in use, for one view.
    fn is_like(&self, other: &Tag) -> bool
        ensures { result ≡ (eqb self.now.used 1 && (eqb other.now.used 1 && same self.now.view other.now.view)) }
    {
        self.used == 1 && other.used == 1 && self.view.same(other.view)
    }
}

impl Slots {
    // Whether no two slots are for one view: each is held against those below it.
    fn differ(&self) -> bool
        ensures { result ≡ differ_in self.now.tags }
    {
        for (s, tag) in self.tags.iter().enumerate() {
            for other in &self.tags[..s] {
                if tag.is_like(other) {
                    return false;
                }
            }
        }
        true
    }

    // Whether the slots are as sound asks.
    pub fn fit(&self, at: &Standing) -> bool
        ensures { result ≡ slots_fit at.now.me at.now.current at.now.latest at.now.pending self.now }
    {
        let good = at.current.well_formed();
        // By index: what a zip gives is not told at the step.
        for (s, tag) in self.tags.iter().enumerate() {
            if !tag.fits(good, at, &self.marks[s]) {
                return false;
            }
        }
        self.differ()
    }
}
