// No records, and one record more.
ghost use Rattle.std.specs.Prelude.{◌≡◌};
ghost use Rattle.records.specs.Records.{no_record, no_records, store_record};

use crate::{Record, Records};
use views::{Cut, View};

impl Record {
    // What stands where there is no record.
    pub(crate) fn none() -> Record
        ensures { result ≡ no_record }
    {
        Record {
            view: View::none(),
            cut: Cut::none(),
            number: 0,
        }
    }
}

impl Records {
    // No records of anyone.
    pub fn none() -> Records
        ensures { result ≡ no_records }
    {
        Records {
            held: [Record::none(); 32],
            counts: [0; 8],
        }
    }

    // Makes x the newest record of r; with four held, the oldest goes. Nothing changes for r above 7.
    #[tactic(auto, using(crate::proofs::Past::store_few, crate::proofs::Past::store_four, crate::proofs::Past::store_past), unfolding(crate::specs::Records::record_count))]
    pub fn store(&mut self, r: u8, x: Record)
        ensures { self.new ≡ store_record self.old r x }
    {
        if 8 <= r {
            return;
        }
        let base = r as usize * 4;
        let count = self.counts[r as usize];
        if count < 4 {
            self.held[base + count as usize] = x;
            self.counts[r as usize] = count + 1;
            return;
        }
        self.held.copy_within(base + 1..base + 4, base);
        self.held[base + 3] = x;
    }
}
