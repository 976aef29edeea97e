// The fresh end-point.
ghost use Rattle.std.specs.Prelude.{◌≡◌};
ghost use Rattle.below.specs.Below.{list_below};
ghost use Rattle.views.specs.Views.{initial};
ghost use Rattle.endpoint.specs.Fresh.{fresh as fresh_of};
ghost use Rattle.endpoint.specs.Steps.{fresh_step};

use crate::refusal::Refusal;
use crate::{Answer, Change, EndPoint};
use messages::Message;
use records::Records;
use slots::Slots;
use views::{View, sets};

// Each sender's initial view.
fn first_views() -> [View; 8]
    ensures { result ≡ list_below initial 8 }
{
    let mut views = [View::none(); 8];
    for q in 0..8u8 {
        views[q as usize] = View::initial(q);
    }
    views
}

#[tactic(auto, unfolding(crate::specs::Fresh::fresh, crate::specs::Fresh::fresh_slots))]
fn made(p: u8) -> EndPoint
    ensures { result ≡ fresh_of p }
{
    let first = View::initial(p);
    let mut slots = Slots::none();
    slots.take(first);
    EndPoint {
        current: first,
        membership: first,
        heard: first_views(),
        records: Records::none(),
        slots,
        forwarded: agreement::no_rows(),
        received: [0; 8],
        given: [0; 8],
        change: Change {
            number: 0,
            set: 0,
            opened: 0,
            pending: 0,
            block: 0,
        },
        me: p,
        declared: sets::only(p),
        told: 1,
        passed: 0,
    }
}

impl EndPoint {
    // Fresh end-point p; above 7 it is refused. A literal: by `accepted` and `refused` the end-point would be copied three times.
    #[tactic(auto, unfolding(crate::specs::Opened::stepped, crate::specs::Steps::fresh_step))]
    pub fn fresh(p: u8) -> Answer
        ensures { result ≡ fresh_step p }
    {
        Answer {
            ep: made(p),
            message: Message::blank(0),
            view: View::none(),
            word: 0,
            number: if p > 7 { Refusal::Unfit.into() } else { 0 },
            set: 0,
        }
    }
}
