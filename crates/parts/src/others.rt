// What is asked of the other senders' announced views and received counts.
ghost use Rattle.std.specs.Prelude.{◌||◌, ◌&&◌, ◌≡◌, eqb};
ghost use Rattle.views.specs.Views.{view_ok};
ghost use Rattle.slots.specs.Spent.{spent_at};
ghost use Rattle.parts.specs.Others.{placed, other_fits, others_fit};

use slots::{Slots, Standing};
use views::View;

// Whether a view that is not current asks for no slot: it is initial or spent.
fn idle(at: &Standing, v: View) -> bool
    ensures { result ≡ (eqb v.id 0 || spent_at at.now v) }
{
    v.id == 0 || at.has_spent(v)
}

// Whether an announced view is well formed and has the slot that it asks for. The current one is as good as it is, and asks for none. good is worked out once, as in slots' Standing::keeps.
#[tactic(auto, using(crate::proofs::Elements::fits_current, crate::proofs::Elements::fits_idle, crate::proofs::Elements::fits_slot))]
fn view_fits(at: &Standing, good: bool, slots: &Slots, v: View) -> bool
    requires { good ≡ view_ok at.now.current }
    ensures { result ≡ (view_ok v && placed at.now.me at.now.current at.now.latest at.now.pending slots.now.tags v) }
{
    if v.same(at.current) {
        return good;
    }
    v.well_formed() && (idle(at, v) || slots.slot_of(v).is_some())
}

#[tactic(auto, using(crate::proofs::Elements::other_low, crate::proofs::Elements::other_ill))]
fn other_fits(at: &Standing, good: bool, slots: &Slots, v: View, count: u8) -> bool
    requires { good ≡ view_ok at.now.current }
    ensures { result ≡ other_fits at.now.me at.now.current at.now.latest at.now.pending slots.now.tags v count }
{
    view_fits(at, good, slots, v) && count <= 128
}

// Whether the other senders' announced views and received counts are as sound asks.
pub fn others_fit(at: &Standing, slots: &Slots, heard: &[View; 8], received: &[u8; 8]) -> bool
    ensures { result ≡ others_fit at.now.me at.now.current at.now.latest at.now.pending slots.now.tags heard.now received.now }
{
    let good = at.current.well_formed();
    for q in 0..8u8 {
        if q != at.me && !other_fits(at, good, slots, heard[q as usize], received[q as usize]) {
            return false;
        }
    }
    true
}
