// The batch: as many words of one sender as a lent area has room for, in one pass over its checks and one over the words.
ghost use Rattle.std.specs.Prelude.{◌++◌, ◌≡◌, ◌+◌, ◌-◌, ◌≤◌, ◌<◌, min, length, drop};
ghost use Rattle.slots.specs.Slots.{run as run_of, slot_of};
ghost use Rattle.endpoint.specs.Give.{batch_answer, batch_area};
ghost use Rattle.endpoint.specs.Pass.{batch_checks, last_given, words_after};
ghost use Rattle.endpoint.specs.Refusals.{Judged};

use crate::refusal::Refusal;
use crate::{Batch, EndPoint, Place};
use views::sets;

impl EndPoint {
    // The last word of q that may be given out, from q's run.
    #[tactic(auto, unfolding(crate::specs::Pass::last_given))]
    fn last_given(&self, q: u8, run: u8) -> u8
        requires { (q < 8) × (run ≡ run_of self.now.slots self.now.current q) }
        ensures { result ≡ last_given self.now q }
    {
        let mut last = run;
        if q == self.me {
            last = last.min(self.passed);
        }
        self.limit(q).map_or(last, |limit| last.min(limit))
    }

    // The slot of q's words, and the index of the last of them that may be given out.
    #[tactic(auto, unfolding(crate::specs::Numbers::verdict, crate::specs::Pass::batch_checks, slots::specs::Slots::run, slots::specs::Slots::marks_at))]
    fn batch_place(&self, area: &[u64], q: u8) -> Result<Place, Refusal>
        ensures { Judged (batch_checks self.now area.now q) (record { slot = slot_of self.now.slots self.now.current; index = last_given self.now q }) result }
    {
        let slot = self.fit(area)?;
        if q > 7 {
            return Err(Refusal::Unfit);
        }
        if !sets::contains(self.current.set, q) {
            return Err(Refusal::Absent);
        }
        let run = self.slots.marks_in(slot).run(q);
        Ok(Place {
            slot,
            index: self.last_given(q, run),
        })
    }
}

// How many of the words after word `given` up to the last have room.
fn room_for(given: u8, last: u8, room: usize) -> u8
    ensures { result ≡ min room (last - given) }
{
    room.min(last.saturating_sub(given) as usize) as u8
}

// The words of q in a slot that follow word `given`, so many of them, copied to the front of `out`.
#[tactic(auto, unfolding(slots::specs::Slots::place))]
fn copy_words(area: &[u64], slot: u8, q: u8, given: u8, count: u8, out: &mut [u64])
    requires { (length area.now ≡ 4096) × ((slot < 4) × ((q < 8) × ((given + count ≤ 128) × (count ≤ length out.old)))) }
    ensures { out.new ≡ words_after area.now slot q given count ++ drop count out.old }
{
    let start = slots::place(slot, q, given + 1);
    // A loop: by copy_from_slice the archive would need memmove from outside.
    for j in 0..count as usize {
        out[j] = area[start + j];
    }
}

impl EndPoint {
    // Batch: gives out as many words of q as `out` has room for, lowest first.
    pub fn batch(mut self, area: &[u64], q: u8, out: &mut [u64]) -> Batch
        ensures { (result ≡ batch_answer self area.now q (length out.old)) × (out.new ≡ batch_area self area.now q out.old) }
    {
        // By return, as the steps: see EndPoint::refused.
        let last = match self.batch_place(area, q) {
            Ok(last) => last,
            Err(refusal) => {
                return Batch {
                    ep: self,
                    count: 0,
                    number: u8::from(refusal),
                };
            }
        };
        let given = self.given[q as usize];
        let count = room_for(given, last.index, out.len());
        copy_words(area, last.slot, q, given, count, out);
        self.given[q as usize] = given + count;
        Batch {
            ep: self,
            count: u64::from(count),
            number: 0,
        }
    }
}
