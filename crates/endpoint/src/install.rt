// Install: the membership view becomes current.
ghost use Rattle.std.specs.Prelude.{[], ◌≡◌};
ghost use Rattle.endpoint.specs.Install.{install_checks};
ghost use Rattle.endpoint.specs.Ready.{T};
ghost use Rattle.endpoint.specs.Refusals.{Judged};
ghost use Rattle.endpoint.specs.Steps.{step, install as install_of};

use crate::refusal::Refusal;
use crate::{Answer, EndPoint};
use slots::Standing;

impl EndPoint {
    // T, where nothing is left to do before the membership view is installed.
    #[tactic(auto, unfolding(crate::specs::Numbers::verdict, crate::specs::Install::install_checks))]
    fn installable(&self) -> Result<u8, Refusal>
        ensures { Judged (install_checks self.now) (T self.now) result }
    {
        if !self.sound() {
            return Err(Refusal::Unfit);
        }
        if !self.ready() {
            return Err(Refusal::OutOfTurn);
        }
        let agreed = self.agreed();
        if agreed.unnamed {
            return Err(Refusal::NotNamed);
        }
        let members = self.current.set;
        if agreed.owes(members, self.me, &self.forwarded) {
            return Err(Refusal::NotForwarded);
        }
        if !parts::counts_least(members, &agreed.counts.counts, &self.given) {
            return Err(Refusal::FewerGiven);
        }
        if !parts::counts_least(members, &self.given, &agreed.counts.counts) {
            return Err(Refusal::MoreGiven);
        }
        Ok(agreed.set)
    }

    // Install: answers the view and T. What the new view makes spent is freed, then it has its slot or a new one.
    #[tactic(auto, unfolding(crate::specs::Opened::stepped, crate::specs::Install::after_install, crate::specs::Install::slots_after))]
    pub fn install(mut self) -> Answer
        ensures { result ≡ step install_of self [] }
    {
        let set = match self.installable() {
            Ok(set) => set,
            Err(refusal) => return self.refused(refusal),
        };
        let view = self.membership;
        let next = Standing {
            current: view,
            pending: false,
            ..self.standing()
        };
        self.slots.free_spent(&next);
        self.slots.give_slot(view);
        self.current = view;
        self.given = [0; 8];
        self.told = 0;
        self.passed = 0;
        self.change.pending = 0;
        self.change.block = 0;
        self.installs(view, set)
    }
}
