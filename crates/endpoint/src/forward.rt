// Forward (q, r): the lowest held word of r that is due to q above the mark. And what stands ready.
ghost use Rattle.std.specs.Prelude.{◌≡◌, ◌+◌};
ghost use Rattle.slots.specs.Slots.{slot_of};
ghost use Rattle.endpoint.specs.Forward.{forward_out_checks, due_index};
ghost use Rattle.endpoint.specs.Refusals.{Judged};
ghost use Rattle.endpoint.specs.Steps.{step, forward as forward_of};

use crate::refusal::Refusal;
use crate::{Answer, EndPoint, Place};
use messages::Message;
use views::sets;

impl EndPoint {
    // Where the word to forward stands.
    #[tactic(auto, unfolding(crate::specs::Numbers::verdict, crate::specs::Forward::forward_out_checks, crate::specs::Forward::due_index))]
    fn forward_place(&self, area: &[u64], q: u8, r: u8) -> Result<Place, Refusal>
        ensures { Judged (forward_out_checks self.now area.now q r) (record { slot = slot_of self.now.slots self.now.current; index = due_index self.now q r }) result }
    {
        let slot = self.fit(area)?;
        if q > 7 || r > 7 {
            return Err(Refusal::Unfit);
        }
        if !self.ready() {
            return Err(Refusal::OutOfTurn);
        }
        let agreed = self.agreed();
        if agreed.unnamed {
            return Err(Refusal::NotNamed);
        }
        let members = self.current.set;
        let held = self.slots.marks_in(slot).rows[r as usize];
        let lowest = agreed.lowest_due(members, self.me, &self.forwarded, held, q, r);
        let Some(due) = lowest else {
            return Err(Refusal::NothingToDo);
        };
        Ok(Place {
            slot,
            index: due + 1,
        })
    }

    // Forward: sends the word to q, raises the mark to it.
    #[tactic(auto, unfolding(crate::specs::Opened::stepped, crate::specs::Forward::forwards, crate::specs::Forward::raised))]
    pub fn forward(mut self, area: &[u64], q: u8, r: u8) -> Answer
        ensures { result ≡ step (forward_of q r) self area.now }
    {
        let place = match self.forward_place(area, q, r) {
            Ok(place) => place,
            Err(refusal) => return self.refused(refusal),
        };
        let word = parts::word_at(area, slots::place(place.slot, r, place.index));
        let message = Message::of_forward(r, place.index, self.current, word);
        agreement::raise(&mut self.forwarded, q, r, place.index);
        self.sends(sets::only(q), message)
    }
}
