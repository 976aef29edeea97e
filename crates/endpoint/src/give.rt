// Give out, and how far give-outs may go.
ghost use Rattle.std.specs.Prelude.{cond, ◌&&◌, Some, None, ◌≡◌, ◌<◌, OnOk};
ghost use Rattle.records.specs.Records.{holds_record};
ghost use Rattle.slots.specs.Slots.{slot_of};
ghost use Rattle.endpoint.specs.Give.{limit as limit_of, give_checks, next_given};
ghost use Rattle.endpoint.specs.Refusals.{Judged};
ghost use Rattle.endpoint.specs.State.{is_pending};
ghost use Rattle.endpoint.specs.Steps.{step, give_out};

use crate::refusal::Refusal;
use crate::{Answer, EndPoint, Place};
use views::sets;

impl EndPoint {
    // How far give-outs from q may go, where there is a limit: p's own cut if no view is ready, else q's agreed count.
    #[tactic(auto, unfolding(crate::specs::Give::limit))]
    pub(crate) fn limit(&self, q: u8) -> Option<u8>
        requires { q < 8 }
        ensures { result ≡ cond (is_pending self.now && holds_record self.now.records self.now.me self.now.change.number) (Some (limit_of self.now q)) None }
    {
        if self.change.pending != 1 {
            return None;
        }
        let own = self.records.find(self.me, self.change.number)?;
        if self.ready() {
            return Some(self.agreed().counts.count(q));
        }
        Some(own.cut.count(q))
    }

    // Where q's next word to give out stands.
    #[tactic(auto, unfolding(crate::specs::Numbers::verdict, crate::specs::Give::give_checks, crate::specs::Give::next_given, crate::specs::Give::nothing_next, crate::specs::Give::beyond_cut, slots::specs::Slots::held_word, slots::specs::Slots::marks_at))]
    fn give_place(&self, area: &[u64], q: u8) -> Result<Place, Refusal>
        ensures judged { Judged (give_checks self.now area.now q) (record { slot = slot_of self.now.slots self.now.current; index = next_given self.now q }) result }
        ensures low { OnOk result (q < 8) }
    {
        let slot = self.fit(area)?;
        if q > 7 {
            return Err(Refusal::Unfit);
        }
        if !sets::contains(self.current.set, q) {
            return Err(Refusal::Absent);
        }
        let next = self.given[q as usize] + 1;
        let held = self.slots.marks_in(slot).holds(q, next);
        if !held || (q == self.me && self.passed < next) {
            return Err(Refusal::NothingToDo);
        }
        if self.limit(q).is_some_and(|limit| limit < next) {
            return Err(Refusal::BeyondCut);
        }
        Ok(Place { slot, index: next })
    }

    // Give out from q: gives the word.
    #[tactic(auto, unfolding(crate::specs::Opened::stepped, crate::specs::Give::gives_next))]
    pub fn give_out(mut self, area: &[u64], q: u8) -> Answer
        ensures { result ≡ step (give_out q) self area.now }
    {
        let place = match self.give_place(area, q) {
            Ok(place) => place,
            Err(refusal) => return self.refused(refusal),
        };
        let word = parts::word_at(area, slots::place(place.slot, q, place.index));
        self.given[q as usize] = place.index;
        self.gives(word)
    }
}
