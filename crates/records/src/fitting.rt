// Whether the records are sound: one pass over all that are held.
ghost use Rattle.std.specs.Prelude.{◌≡◌, true, cond, ◌&&◌, ◌+◌, leb};
ghost use Rattle.records.specs.Records.{record_ok, records_fit};

use crate::{Record, Records};

impl Record {
    // Whether the record is well formed, its number rises from the least, and where it is the end-point's own is not above its latest.
    #[tactic(auto, using(below::proofs::Tests::picks), unfolding(crate::specs::Records::record_ok))]
    fn passes(self, least: u64, own: bool, latest: u32) -> bool
        ensures { result ≡ (leb least self.number && cond own (leb self.number latest) true && record_ok self) }
    {
        least <= u64::from(self.number)
            && (!own || self.number <= latest)
            && self.view.well_formed()
            && self.cut.well_formed(self.view.set)
    }
}

impl Records {
    // Whether each sender has at most four records, all well formed and rising in number, p's own none above the latest.
    #[tactic(auto, using(below::proofs::All::all_none, crate::proofs::Passing::passing))]
    pub fn fit(&self, p: u8, latest: u32) -> bool
        ensures { result ≡ records_fit self.now p latest }
    {
        for r in 0..8u8 {
            let count = self.count(r);
            if 4 < count {
                return false;
            }
            let mut least = 0;
            for k in 0..count {
                let x = self.at(r, k);
                if !x.passes(least, r == p, latest) {
                    return false;
                }
                least = u64::from(x.number) + 1;
            }
        }
        true
    }
}
