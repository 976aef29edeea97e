// The end-point's own steps on the way to a change: ask to block, declare, announce, pass out, sync.
ghost use Rattle.std.specs.Prelude.{[], ◌≡◌, ◌+◌};
ghost use Rattle.slots.specs.Slots.{slot_of};
ghost use Rattle.endpoint.specs.Change.{pass_checks, own_cut};
ghost use Rattle.endpoint.specs.Refusals.{Judged};
ghost use Rattle.endpoint.specs.Steps.{step, ask_to_block, declare as declare_of, announce as announce_of, pass_out, sync as sync_of};

use crate::refusal::Refusal;
use crate::{Answer, EndPoint, Place};
use messages::{Kind, Message};
use records::Record;
use views::{Cut, sets};

impl EndPoint {
    // Where p's next word to pass out stands.
    #[tactic(auto, unfolding(crate::specs::Numbers::verdict, crate::specs::Change::pass_checks, crate::specs::Application::own_run, slots::specs::Slots::run, slots::specs::Slots::marks_at))]
    fn pass_place(&self, area: &[u64]) -> Result<Place, Refusal>
        ensures { Judged (pass_checks self.now area.now) (record { slot = slot_of self.now.slots self.now.current; index = self.now.passed + 1 }) result }
    {
        let slot = self.fit(area)?;
        if self.told != 1 {
            return Err(Refusal::OutOfTurn);
        }
        let run = self.slots.marks_in(slot).run(self.me);
        if self.passed >= run {
            return Err(Refusal::NothingToDo);
        }
        Ok(Place {
            slot,
            index: self.passed + 1,
        })
    }

    // The cut: the run of each member of the current view, 0 for others.
    fn own_cut(&self) -> Cut
        ensures { result ≡ own_cut self.now }
    {
        parts::cut_of(self.current.set, &self.slots.marks_of(self.current))
    }

    // Ask to block: becomes asked.
    #[tactic(auto, unfolding(crate::specs::Opened::stepped, crate::specs::Change::ask_checks, crate::specs::Change::after_ask))]
    pub fn ask_to_block(mut self) -> Answer
        ensures { result ≡ step ask_to_block self [] }
    {
        if !self.sound() {
            return self.refused(Refusal::Unfit);
        }
        if self.change.pending != 1 || self.change.block != 0 {
            return self.refused(Refusal::OutOfTurn);
        }
        self.change.block = 1;
        self.accepted()
    }

    // Declare: the current set, joined with the start set if pending.
    #[tactic(auto, unfolding(crate::specs::Opened::stepped, crate::specs::Change::declare_checks, crate::specs::Change::declared_set, crate::specs::Change::after_declare))]
    pub fn declare(mut self) -> Answer
        ensures { result ≡ step declare_of self [] }
    {
        if !self.sound() {
            return self.refused(Refusal::Unfit);
        }
        self.declared = if self.change.pending == 1 {
            sets::joined(self.current.set, self.change.set)
        } else {
            self.current.set
        };
        self.declares(self.declared)
    }

    // Announce: a view message to the current set less p.
    #[tactic(auto, unfolding(crate::specs::Opened::stepped, crate::specs::Change::announce_checks, crate::specs::Change::announces))]
    pub fn announce(mut self) -> Answer
        ensures { result ≡ step announce_of self [] }
    {
        if !self.sound() {
            return self.refused(Refusal::Unfit);
        }
        if !sets::within(self.current.set, self.declared) {
            return self.refused(Refusal::NotDeclared);
        }
        if self.told == 1 {
            return self.refused(Refusal::NothingToDo);
        }
        self.told = 1;
        let others = sets::less(self.current.set, self.me);
        self.sends(others, Message::of_view(Kind::View.into(), self.current))
    }

    // Pass out: p's next word to the current set less p.
    #[tactic(auto, unfolding(crate::specs::Opened::stepped, crate::specs::Change::passes, crate::specs::Change::own_next))]
    pub fn pass_out(mut self, area: &[u64]) -> Answer
        ensures { result ≡ step pass_out self area.now }
    {
        let place = match self.pass_place(area) {
            Ok(place) => place,
            Err(refusal) => return self.refused(refusal),
        };
        let word = parts::word_at(area, slots::place(place.slot, self.me, place.index));
        let others = sets::less(self.current.set, self.me);
        self.passed = place.index;
        self.sends(others, Message::of_word(word))
    }

    // Sync: p's cut stored as its own record, and sent to the start set less p.
    #[tactic(auto, unfolding(crate::specs::Opened::stepped, crate::specs::Change::sync_out_checks, crate::specs::Change::syncs))]
    pub fn sync(mut self) -> Answer
        ensures { result ≡ step sync_of self [] }
    {
        if !self.sound() {
            return self.refused(Refusal::Unfit);
        }
        let number = self.change.number;
        let synced = self.records.holds(self.me, number);
        if self.change.pending != 1 || self.change.block != 2 || synced {
            return self.refused(Refusal::OutOfTurn);
        }
        if !sets::within(self.change.set, self.declared) {
            return self.refused(Refusal::NotDeclared);
        }
        let view = self.current;
        let cut = self.own_cut();
        let others = sets::less(self.change.set, self.me);
        self.records.store(self.me, Record { view, cut, number });
        self.sends(others, Message::of_sync(number, view, cut))
    }
}
