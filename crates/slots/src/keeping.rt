// Slots kept: none, a word marked, freed, taken.
ghost use Rattle.std.specs.Prelude.{◌≡◌, not, ◌&&◌, eqb};
ghost use Rattle.slots.specs.Slots.{no_slots, mark_in, freed, taken, with_slot};
ghost use Rattle.slots.specs.Spent.{spent_at};

use crate::{Slots, Standing, Tag};
use marks::Marks;
use views::View;

impl Tag {
    // Whether the flag is to be lowered: at 0 it need not be.
    fn is_spent(&self, at: &Standing) -> bool
        ensures { result ≡ (not (eqb self.now.used 0) && spent_at at.now self.now.view) }
    {
        self.used != 0 && at.has_spent(self.view)
    }
}

impl Slots {
    // All four free.
    pub fn none() -> Slots
        ensures { result ≡ no_slots }
    {
        let tag = Tag {
            view: View::none(),
            used: 0,
        };
        Slots {
            tags: [tag; 4],
            marks: [Marks::none(); 4],
        }
    }

    // Word i of sender r in slot s marked as held; as it was for s above 3.
    #[tactic(auto, using(crate::proofs::Branches::mark_past, marks::proofs::Slot::array_length), unfolding(crate::specs::Slots::mark_in, crate::specs::Slots::marks_at))]
    pub fn mark(&mut self, s: u8, r: u8, i: u8)
        ensures { self.new ≡ mark_in self.old s r i }
    {
        if s < 4 {
            self.marks[s as usize].mark(r, i);
        }
    }

    // The slots of the spent views freed.
    pub fn free_spent(&mut self, at: &Standing)
        ensures { self.new ≡ freed (spent_at at.now) self.old }
    {
        for tag in &mut self.tags {
            if tag.is_spent(at) {
                tag.used = 0;
            }
        }
    }

    // The lowest free slot taken for v, its marks cleared; as it was where none is free.
    #[tactic(auto, using(crate::proofs::Branches::take_here, crate::proofs::Branches::take_past, marks::proofs::Slot::array_length))]
    pub fn take(&mut self, v: View)
        ensures { self.new ≡ taken v self.old }
    {
        if let Some(s) = self.free_slot() {
            self.tags[s as usize] = Tag { view: v, used: 1 };
            self.marks[s as usize] = Marks::none();
        }
    }

    // v's own slot, or a new one.
    #[tactic(auto, using(crate::proofs::Branches::with_own, crate::proofs::Branches::with_taken))]
    pub fn give_slot(&mut self, v: View)
        ensures { self.new ≡ with_slot v self.old }
    {
        if self.slot_of(v).is_none() {
            self.take(v);
        }
    }
}
