// The membership service's steps: start change, membership view.
ghost use Rattle.std.specs.Prelude.{[], ◌≡◌};
ghost use Rattle.endpoint.specs.Membership.{start_checks, membership_checks};
ghost use Rattle.endpoint.specs.Numbers.{verdict};
ghost use Rattle.endpoint.specs.Sound.{sound as sound_of};
ghost use Rattle.endpoint.specs.Steps.{step, start_change, membership_view};

use crate::refusal::Refusal;
use crate::{Answer, Change, EndPoint};
use slots::Standing;
use views::{View, sets};

impl EndPoint {
    // Start change: stored; open and pending. What that makes spent is freed.
    #[tactic(auto, unfolding(crate::specs::Opened::stepped, crate::specs::Membership::start_checks, crate::specs::Membership::after_start))]
    pub fn start_change(mut self, number: u32, set: u8) -> Answer
        ensures { result ≡ step (start_change number set) self [] }
    {
        if !self.sound() {
            return self.refused(Refusal::Unfit);
        }
        if !sets::contains(set, self.me) {
            return self.refused(Refusal::Absent);
        }
        if number <= self.change.number {
            return self.refused(Refusal::NotNewer);
        }
        let next = Standing {
            latest: number,
            pending: true,
            ..self.standing()
        };
        self.slots.free_spent(&next);
        self.change = Change {
            number,
            set,
            opened: 1,
            pending: 1,
            ..self.change
        };
        self.accepted()
    }

    // Membership view: stored; no longer open; all forward marks become 0.
    #[tactic(auto, unfolding(crate::specs::Opened::stepped, crate::specs::Membership::membership_checks, crate::specs::Membership::after_membership))]
    pub fn membership_view(mut self, v: View) -> Answer
        ensures { result ≡ step (membership_view v) self [] }
    {
        if !self.sound() || !v.well_formed() {
            return self.refused(Refusal::Unfit);
        }
        if !sets::contains(v.set, self.me) {
            return self.refused(Refusal::Absent);
        }
        if v.id <= self.membership.id {
            return self.refused(Refusal::NotNewer);
        }
        let newest = v.start(self.me) == self.change.number;
        if self.change.opened != 1 || !newest || !sets::within(v.set, self.change.set) {
            return self.refused(Refusal::OutOfTurn);
        }
        self.membership = v;
        self.forwarded = agreement::no_rows();
        self.change.opened = 0;
        self.accepted()
    }
}
