// The larger count of each sender, over two cuts and over those of the members of T below a number.
ghost use Rattle.std.specs.Prelude.{◌≡◌, ◌≤◌};
ghost use Rattle.agreement.specs.Tops.{higher, tops, cut_or_none};

use crate::Agreement;
use views::{Cut, sets};

// A loop: by a chain the answer took eight steps.
pub(crate) fn higher(a: Cut, b: Cut) -> Cut
    ensures { result ≡ higher a b }
{
    let mut counts = [0; 8];
    for n in 0..8 {
        counts[n] = a.counts[n].max(b.counts[n]);
    }
    Cut { counts }
}

impl Agreement {
    // The largest count of each sender among the members of T below p.
    #[tactic(auto, using(crate::proofs::Largest::tops_start, crate::proofs::Largest::lowers_with, crate::proofs::Largest::lowers_without, crate::proofs::Rows::read_any))]
    pub(crate) fn lowers(&self, p: u8) -> Cut
        requires { p ≤ 8 }
        ensures { result ≡ tops (cut_or_none self.now) p }
    {
        let mut c = Cut::none();
        for m in 0..p {
            if sets::contains(self.set, m) {
                c = higher(c, self.cuts[m as usize]);
            }
        }
        c
    }
}
