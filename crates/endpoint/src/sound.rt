// Whether an end-point is sound, in one pass over it, and whether a lent area is of the right length.
ghost use Rattle.std.specs.Prelude.{true, cond, Some, None, ◌≡◌, MatchResult};
ghost use Rattle.slots.specs.Slots.{slot_of};
ghost use Rattle.endpoint.specs.Application.{unfit};
ghost use Rattle.endpoint.specs.Pass.{flags_fit, words_fit, views_sound, Fits};
ghost use Rattle.endpoint.specs.Refusals.{number_of};
ghost use Rattle.endpoint.specs.Sound.{sound as sound_of};
ghost use Rattle.endpoint.specs.State.{is_pending};

use crate::refusal::Refusal;
use crate::{Change, EndPoint};
use slots::Standing;
use views::sets;

impl Change {
    // Whether the flags are in their ranges, with the one of the current view's announcement.
    fn flags_fit(self, told: u8) -> bool
        ensures { result ≡ flags_fit self told }
    {
        self.opened <= 1 && self.pending <= 1 && self.block <= 2 && told <= 1
    }
}

impl EndPoint {
    // What its views are held against.
    pub(crate) fn standing(&self) -> Standing
        ensures { result ≡ record { me = self.now.me; current = self.now.current; latest = self.now.change.number; pending = is_pending self.now } }
    {
        Standing {
            me: self.me,
            current: self.current,
            latest: self.change.number,
            pending: self.change.pending == 1,
        }
    }

    // What is asked of the flags and of the views that it is in.
    #[tactic(auto, unfolding(crate::specs::Pass::views_sound))]
    fn views_sound(&self) -> bool
        ensures { result ≡ views_sound self.now.me self.now.change self.now.told self.now.current self.now.membership }
    {
        let formed = self.current.well_formed() && self.membership.well_formed();
        let here = sets::contains(self.current.set, self.me);
        let there = sets::contains(self.membership.set, self.me);
        self.me <= 7 && self.change.flags_fit(self.told) && formed && here && there
    }

    // The current view's slot, if the words are as sound asks: the slots, the current view's own, the counts of what was given and passed out.
    #[tactic(auto, using(slots::proofs::Tags::slot_in_lem), unfolding(crate::specs::Pass::words_fit))]
    fn words_slot(&self) -> Option<u8>
        ensures { result ≡ cond (words_fit self.now.me self.now.current self.now.change.number (is_pending self.now) self.now.slots self.now.given self.now.passed) (Some (slot_of self.now.slots self.now.current)) None }
    {
        if !self.slots.fit(&self.standing()) {
            return None;
        }
        let slot = self.slots.slot_of(self.current)?;
        let marks = self.slots.marks_in(slot);
        if !parts::given_fit(&self.given, &marks) || marks.run(self.me) < self.passed {
            return None;
        }
        Some(slot)
    }

    // The current view's slot, if the end-point is sound.
    #[tactic(auto, using(crate::proofs::Passing::sound_passed))]
    fn sound_slot(&self) -> Option<u8>
        ensures { result ≡ cond (sound_of self.now) (Some (slot_of self.now.slots self.now.current)) None }
    {
        if !self.views_sound() {
            return None;
        }
        if !parts::others_fit(&self.standing(), &self.slots, &self.heard, &self.received) {
            return None;
        }
        if !self.records.fit(self.me, self.change.number) || !parts::rows_fit(&self.forwarded) {
            return None;
        }
        self.words_slot()
    }

    // Whether the end-point is sound: every step gives 1 on one that is not.
    pub fn sound(&self) -> bool
        ensures { result ≡ sound_of self.now }
    {
        self.sound_slot().is_some()
    }

    // What every step that takes the word area asks first: gives the current view's slot.
    #[tactic(auto, using(crate::proofs::Planning::fits), unfolding(crate::specs::Application::unfit))]
    pub(crate) fn fit(&self, area: &[u64]) -> Result<u8, Refusal>
        ensures { MatchResult result (λ s. Fits self.now area.now s) (λ r. (unfit self.now area.now ≡ true) × (number_of r ≡ 1)) }
    {
        if area.len() != 4096 {
            return Err(Refusal::Unfit);
        }
        self.sound_slot().ok_or(Refusal::Unfit)
    }
}
