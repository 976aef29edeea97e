// The record with a number, and the newest. A sender above 7 has none; past the last place there is nothing, whatever a count says.
ghost use Rattle.std.specs.Prelude.{◌≡◌, cond};
ghost use Rattle.records.specs.Records.{record_at, record_count, holds_record, the_record, newest as newest_of};

use crate::{Record, Records};

impl Records {
    // How many records of r count.
    #[tactic(auto, using(std::proofs::lemmas::List::get_or_past), unfolding(crate::specs::Records::record_count))]
    pub(crate) fn count(&self, r: u8) -> u8
        ensures { result ≡ record_count self.now r }
    {
        if r < 8 { self.counts[r as usize] } else { 0 }
    }

    // Record k of r.
    #[tactic(auto, using(crate::proofs::Past::read_at, crate::proofs::Past::record_past))]
    pub(crate) fn at(&self, r: u8, k: u8) -> Record
        ensures { result ≡ record_at self.now r k }
    {
        let at = r as usize * 4 + k as usize;
        if at < 32 {
            self.held[at]
        } else {
            Record::none()
        }
    }

    // The record of r with this number, if one is held.
    #[tactic(auto, using(below::proofs::Run::find_none, crate::proofs::Past::search_more, crate::proofs::Past::search_here, crate::proofs::Past::search_end))]
    pub fn find(&self, r: u8, number: u32) -> Option<Record>
        ensures { result ≡ cond (holds_record self.now r number) (Some (the_record self.now r number)) None }
    {
        for k in 0..self.count(r) {
            let x = self.at(r, k);
            if x.number == number {
                return Some(x);
            }
        }
        None
    }

    // Whether a record of r with this number is held.
    #[tactic(auto, using(crate::proofs::Past::held_found))]
    pub fn holds(&self, r: u8, number: u32) -> bool
        ensures { result ≡ holds_record self.now r number }
    {
        self.find(r, number).is_some()
    }

    // That record; where none is held, what stands past the held ones, as `the_record` has it.
    #[tactic(auto, using(crate::proofs::Past::the_found))]
    pub fn the(&self, r: u8, number: u32) -> Record
        ensures { result ≡ the_record self.now r number }
    {
        self.find(r, number).unwrap_or(self.at(r, self.count(r)))
    }

    // The number of r's newest record, 0 where none is held, as `newest` has it.
    #[tactic(auto, using(crate::proofs::Find::newest_none, crate::proofs::Find::newest_last))]
    pub fn newest(&self, r: u8) -> u32
        ensures { result ≡ newest_of self.now r }
    {
        let count = self.count(r);
        if count == 0 {
            0
        } else {
            self.at(r, count - 1).number
        }
    }
}
