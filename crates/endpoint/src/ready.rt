// Whether a view is ready, and what its members agree on.
ghost use Rattle.std.specs.Prelude.{ℕ, ◌≡◌, ◌<◌};
ghost use Rattle.views.specs.Cuts.{count_of};
ghost use Rattle.agreement.specs.Agreement.{agreement as agreement_of};
ghost use Rattle.endpoint.specs.Ready.{ready as ready_of, unnamed, T, agreed as agreed_of};

use crate::EndPoint;
use agreement::Agreement;

impl EndPoint {
    // Whether a view is ready to be installed, once what is due and agreed is done.
    #[tactic(auto, unfolding(crate::specs::Ready::ready))]
    pub fn ready(&self) -> bool
        ensures { result ≡ ready_of self.now }
    {
        let start = self.membership.start(self.me);
        self.change.pending == 1
            && self.current.id < self.membership.id
            && start == self.change.number
    }

    // What the members of both views agree on, by the records held.
    pub(crate) fn agreed(&self) -> Agreement
        ensures whole { result ≡ agreement_of self.now.current self.now.membership self.now.records }
        ensures unnamed { result.unnamed ≡ unnamed self.now }
        ensures set { result.set ≡ T self.now }
        ensures counts { (q : ℕ) → q < 8 → count_of result.counts q ≡ agreed_of self.now q }
    {
        agreement::agree(self.current, self.membership, &self.records)
    }
}
