// Receive: a view, a word, a sync or a forward from another member.
ghost use Rattle.std.specs.Prelude.{true, false, cond, Some, None, ◌≡◌, ◌≤◌, ◌<◌, length, IfOk, IfSome, MatchResult};
ghost use Rattle.slots.specs.Slots.{place, slot_of};
ghost use Rattle.messages.specs.Kinds.{code_of};
ghost use Rattle.endpoint.specs.Pass.{Fits, Receivable};
ghost use Rattle.endpoint.specs.Receive.{unreceivable, view_checks, after_view, live, next_word, word_checks, after_word, area_after_word, sync_checks, after_sync, forward_checks, after_forward, area_after_forward, needs_slot as needs_of, receive_checks, after_receive, area_after_receive};
ghost use Rattle.endpoint.specs.Refusals.{number_of, Judged, Changes};
ghost use Rattle.endpoint.specs.Sound.{heard_from};
ghost use Rattle.endpoint.specs.Steps.{step, area_after, receive as receive_of};

use crate::answers::Given;
use crate::refusal::Refusal;
use crate::{Answer, EndPoint, Place};
use messages::{Kind, Message};
use records::Record;
use views::{View, sets};

impl EndPoint {
    // What every message is asked first: gives the current view's slot, and the kind, which is one that a peer sends.
    #[tactic(auto, unfolding(crate::specs::Receive::unreceivable))]
    fn check_message(&self, area: &[u64], q: u8, m: Message) -> Result<(u8, Kind), Refusal>
        ensures { MatchResult result (λ p. (unreceivable self.now area.now q m ≡ false) × Fits self.now area.now p.0 × (m.kind ≡ code_of p.1)) (λ r. (unreceivable self.now area.now q m ≡ true) × (number_of r ≡ 1)) }
    {
        let slot = self.fit(area)?;
        // By number, as `unreceivable` has it: a second test once the kind is named would be no plainer.
        if q > 7 || q == self.me || !m.well_formed() || m.kind > 4 {
            return Err(Refusal::Unfit);
        }
        // A well formed message has a kind.
        let Ok(kind) = m.named_kind() else {
            unreachable!()
        };
        Ok((slot, kind))
    }

    // The view that q announced last.
    // q is tested by who calls: a type for member numbers would be taken apart at once, since C's is a u8.
    fn announced(&self, q: u8) -> View
        requires { q < 8 }
        ensures { result ≡ heard_from self.now q }
    {
        self.heard[q as usize]
    }

    // Whether a view has no slot and needs one.
    #[tactic(auto, using(slots::proofs::Tags::slot_in_lem), unfolding(crate::specs::Receive::needs_slot, crate::specs::Spent::spent, slots::specs::Slots::has_slot))]
    fn needs_slot(&self, v: View) -> bool
        ensures { result ≡ needs_of self.now v }
    {
        !v.same(self.current) && !self.standing().has_spent(v) && self.slots.slot_of(v).is_none()
    }

    #[tactic(auto, using(slots::proofs::Tags::free_in_lem), unfolding(crate::specs::Numbers::verdict, crate::specs::Receive::view_checks, crate::specs::Receive::after_view, slots::specs::Slots::has_free))]
    fn take_view(&mut self, q: u8, v: View) -> Result<(), Refusal>
        requires { q < 8 }
        ensures { Changes (view_checks self.old q v) self.old (after_view self.old q v) self.new result }
    {
        if !sets::contains(v.set, self.me) || !sets::contains(v.set, q) {
            return Err(Refusal::Absent);
        }
        if v.id <= self.announced(q).id {
            return Err(Refusal::NotNewer);
        }
        if self.needs_slot(v) {
            if self.slots.free_slot().is_none() {
                return Err(Refusal::NoFreeSlot);
            }
            self.slots.take(v);
        }
        self.heard[q as usize] = v;
        self.received[q as usize] = 0;
        Ok(())
    }

    // Where q's next word stands: nowhere if the view it is sent in is spent.
    #[tactic(auto, using(slots::proofs::Tags::slot_in_lem, slots::proofs::Places::place_low), unfolding(crate::specs::Numbers::verdict, crate::specs::Receive::word_checks, crate::specs::Receive::live, crate::specs::Receive::next_word, crate::specs::Spent::spent, crate::specs::Receive::other_word, slots::specs::Slots::held_word, slots::specs::Slots::marks_at))]
    fn word_place(&self, area: &[u64], q: u8, w: u64) -> Result<Option<Place>, Refusal>
        requires { Receivable self.now area.now q }
        ensures judged { Judged (word_checks self.now area.now q w) (cond (live self.now q) (Some (record { slot = slot_of self.now.slots (heard_from self.now q); index = next_word self.now q })) None) result }
        ensures within { IfOk result (λ o. IfSome o (λ p. place p.slot q p.index < length area.now)) }
    {
        let heard = self.announced(q);
        if heard.id == 0 {
            return Err(Refusal::OutOfTurn);
        }
        if self.standing().has_spent(heard) {
            return Ok(None);
        }
        let received = self.received[q as usize];
        if received == 128 {
            return Err(Refusal::Full);
        }
        let index = received + 1;
        // A view that is neither initial nor spent has a slot.
        let Some(slot) = self.slots.slot_of(heard) else {
            unreachable!()
        };
        let marks = self.slots.marks_in(slot);
        if parts::other_word(&marks, area, slot, q, index, w) {
            return Err(Refusal::AnotherWord);
        }
        Ok(Some(Place { slot, index }))
    }

    #[tactic(auto, unfolding(crate::specs::Receive::after_word, crate::specs::Receive::area_after_word, crate::specs::Receive::store_word, crate::specs::Receive::store_area, slots::specs::Slots::mark_word, slots::specs::Slots::mark_in))]
    fn take_word(&mut self, area: &mut [u64], q: u8, w: u64) -> Result<(), Refusal>
        requires { Receivable self.old area.old q }
        ensures ep { Changes (word_checks self.old area.old q w) self.old (after_word self.old q) self.new result }
        ensures area { Changes (word_checks self.old area.old q w) area.old (area_after_word self.old area.old q w) area.new result }
    {
        if let Some(place) = self.word_place(area, q, w)? {
            area[slots::place(place.slot, q, place.index)] = w;
            self.slots.mark(place.slot, q, place.index);
            self.received[q as usize] = place.index;
        }
        Ok(())
    }

    #[tactic(auto, unfolding(crate::specs::Numbers::verdict, crate::specs::Receive::sync_checks, crate::specs::Receive::after_sync))]
    fn take_sync(&mut self, q: u8, m: Message) -> Result<(), Refusal>
        ensures { Changes (sync_checks self.old q m) self.old (after_sync self.old q m) self.new result }
    {
        if !sets::contains(m.view.set, q) {
            return Err(Refusal::Absent);
        }
        if m.number <= self.records.newest(q) {
            return Err(Refusal::NotNewer);
        }
        let record = Record {
            view: m.view,
            cut: m.cut,
            number: m.number,
        };
        self.records.store(q, record);
        Ok(())
    }

    #[tactic(auto, using(slots::proofs::Places::place_low), unfolding(crate::specs::Numbers::verdict, crate::specs::Receive::forward_checks, crate::specs::Receive::other_word, crate::specs::Receive::after_forward, crate::specs::Receive::area_after_forward, crate::specs::Receive::store_word, crate::specs::Receive::store_area, slots::specs::Slots::mark_word, slots::specs::Slots::mark_in, slots::specs::Slots::held_word, slots::specs::Slots::marks_at))]
    fn take_forward(&mut self, area: &mut [u64], slot: u8, q: u8, m: Message) -> Result<(), Refusal>
        requires fits { Fits self.old area.old slot }
        requires word { (m.sender < 8) × (1 ≤ m.index) × (m.index ≤ 128) }
        ensures ep { Changes (forward_checks self.old area.old q m) self.old (after_forward self.old m) self.new result }
        ensures area { Changes (forward_checks self.old area.old q m) area.old (area_after_forward self.old area.old m) area.new result }
    {
        let view = m.view;
        let own = m.sender == self.me;
        if !sets::contains(view.set, self.me)
            || !sets::contains(view.set, q)
            || !sets::contains(view.set, m.sender)
            || own
        {
            return Err(Refusal::Absent);
        }
        if !view.same(self.current) {
            return Ok(());
        }
        let marks = self.slots.marks_in(slot);
        if parts::other_word(&marks, area, slot, m.sender, m.index, m.word) {
            return Err(Refusal::AnotherWord);
        }
        area[slots::place(slot, m.sender, m.index)] = m.word;
        self.slots.mark(slot, m.sender, m.index);
        Ok(())
    }

    // Receive in place. Not inlined: the end-point is then copied into the answer once, and a receive takes two thirds of the time.
    #[tactic(auto, unfolding(crate::specs::Numbers::verdict, crate::specs::Receive::receive_checks))]
    #[inline(never)]
    fn take(&mut self, area: &mut [u64], q: u8, m: Message) -> Result<(), Refusal>
        ensures ep { Changes (receive_checks self.old area.old q m) self.old (after_receive self.old q m) self.new result }
        ensures area { Changes (receive_checks self.old area.old q m) area.old (area_after_receive self.old area.old q m) area.new result }
    {
        let (slot, kind) = self.check_message(area, q, m)?;
        // The last arm is a forward: check_message lets no other kind through.
        match kind {
            Kind::View => self.take_view(q, m.view),
            Kind::Word => self.take_word(area, q, m.word),
            Kind::Sync => self.take_sync(q, m),
            _ => self.take_forward(area, slot, q, m),
        }
    }

    // Receive from q. A refused message stays at the head of its channel.
    #[tactic(auto, unfolding(crate::specs::Opened::stepped))]
    pub fn receive(mut self, area: &mut [u64], q: u8, m: Message) -> Answer
        ensures { (result ≡ step (receive_of q m) self area.old) × (area.new ≡ area_after (receive_of q m) self area.old) }
    {
        let outcome = self.take(area, q, m);
        self.answer(outcome.map(|()| Given::nothing()))
    }
}
