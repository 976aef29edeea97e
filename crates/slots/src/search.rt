// Which slot is a view's, which is free, and where a word stands.
ghost use Rattle.std.specs.Prelude.{◌≡◌, not, ◌&&◌, eqb, get_or};
ghost use Rattle.std.specs.List.{position};
ghost use Rattle.below.specs.Below.{found};
ghost use Rattle.views.specs.Views.{same};
ghost use Rattle.marks.specs.Marks.{no_marks};
ghost use Rattle.slots.specs.Slots.{slot_in, free_in, place as place_of};

use crate::{Slots, Tag};
use marks::Marks;
use views::View;

impl Tag {
    fn is_for(&self, v: View) -> bool
        ensures { result ≡ (eqb self.now.used 1 && same self.now.view v) }
    {
        self.used == 1 && self.view.same(v)
    }
}

impl Slots {
    // The first tag for v: apart from slot_of, since a `?` loses what position says.
    fn tag_for(&self, v: View) -> Option<usize>
        ensures { result ≡ position (λ t. eqb t.used 1 && same t.view v) self.now.tags }
    {
        self.tags.iter().position(|tag| tag.is_for(v))
    }

    // The slot of v, if it has one.
    pub fn slot_of(&self, v: View) -> Option<u8>
        ensures { result ≡ found 4 (slot_in self.now.tags v) }
    {
        let s = self.tag_for(v)?;
        Some(s as u8)
    }

    // The first tag that is free: apart as tag_for is, whose test is another.
    fn free_tag(&self) -> Option<usize>
        ensures { result ≡ position (λ t. not (eqb t.used 1)) self.now.tags }
    {
        self.tags.iter().position(|tag| tag.used != 1)
    }

    // The lowest free slot, if there is one.
    #[tactic(auto, using(crate::proofs::Searches::free_found, marks::proofs::Slot::array_length))]
    pub fn free_slot(&self) -> Option<u8>
        ensures { result ≡ found 4 (free_in self.now.tags) }
    {
        let s = self.free_tag()?;
        Some(s as u8)
    }

    // The marks of slot s: none held from 4 on.
    pub fn marks_in(&self, s: u8) -> Marks
        ensures { result ≡ get_or self.now.marks s no_marks }
    {
        self.marks
            .get(usize::from(s))
            .copied()
            .unwrap_or(Marks::none())
    }

    // The marks of v's slot: none held where it has none.
    pub fn marks_of(&self, v: View) -> Marks
        ensures { result ≡ get_or self.now.marks (slot_in self.now.tags v) no_marks }
    {
        self.slot_of(v).map_or(Marks::none(), |s| self.marks_in(s))
    }
}

// Where word i of sender r in slot s stands.
#[tactic(auto, unfolding(crate::specs::Slots::place))]
pub fn place(s: u8, r: u8, i: u8) -> usize
    ensures { result ≡ place_of s r i }
{
    (s as usize * 1024 + r as usize * 128 + i as usize).saturating_sub(1)
}
