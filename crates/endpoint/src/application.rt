// The application's steps: send, block-ok.
ghost use Rattle.std.specs.Prelude.{[], ◌≡◌, ◌+◌, ◌<◌, length, IfOk};
ghost use Rattle.slots.specs.Slots.{place, slot_of};
ghost use Rattle.endpoint.specs.Application.{own_run, send_checks};
ghost use Rattle.endpoint.specs.Refusals.{Judged};
ghost use Rattle.endpoint.specs.Steps.{step, area_after, send as send_of, block_ok};

use crate::refusal::Refusal;
use crate::{Answer, EndPoint, Place};

impl EndPoint {
    // Where p's next own word stands.
    #[tactic(auto, using(slots::proofs::Places::place_low), unfolding(crate::specs::Numbers::verdict, crate::specs::Application::send_checks, crate::specs::Application::own_run, slots::specs::Slots::run, slots::specs::Slots::marks_at))]
    fn send_place(&self, area: &[u64]) -> Result<Place, Refusal>
        ensures judged { Judged (send_checks self.now area.now) (record { slot = slot_of self.now.slots self.now.current; index = own_run self.now + 1 }) result }
        ensures within { IfOk result (λ p. place p.slot self.now.me p.index < length area.now) }
    {
        let slot = self.fit(area)?;
        if self.change.block == 2 {
            return Err(Refusal::Blocked);
        }
        let run = self.slots.marks_in(slot).run(self.me);
        if run == 128 {
            return Err(Refusal::Full);
        }
        Ok(Place {
            slot,
            index: run + 1,
        })
    }

    // Application send: appends the word to p's own in the current view.
    #[tactic(auto, unfolding(crate::specs::Opened::stepped, crate::specs::Application::after_send, crate::specs::Application::area_after_send, slots::specs::Slots::mark_word, slots::specs::Slots::mark_in))]
    pub fn send(mut self, area: &mut [u64], w: u64) -> Answer
        ensures { (result ≡ step (send_of w) self area.old) × (area.new ≡ area_after (send_of w) self area.old) }
    {
        let place = match self.send_place(area) {
            Ok(place) => place,
            Err(refusal) => return self.refused(refusal),
        };
        area[slots::place(place.slot, self.me, place.index)] = w;
        self.slots.mark(place.slot, self.me, place.index);
        self.accepted()
    }

    // Block-ok: becomes blocked.
    #[tactic(auto, unfolding(crate::specs::Opened::stepped, crate::specs::Application::block_ok_checks, crate::specs::Application::after_block_ok))]
    pub fn block_ok(mut self) -> Answer
        ensures { result ≡ step block_ok self [] }
    {
        if !self.sound() {
            return self.refused(Refusal::Unfit);
        }
        if self.change.block != 1 {
            return self.refused(Refusal::OutOfTurn);
        }
        self.change.block = 2;
        self.accepted()
    }
}
