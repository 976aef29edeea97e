// Tests on cuts.
ghost use Rattle.std.specs.Prelude.{◌≡◌, ◌+◌, ◌*◌, ◌<◌, cond, get_or};
ghost use Rattle.views.specs.Words.{word};
ghost use Rattle.views.specs.Sets.{has};
ghost use Rattle.views.specs.Cuts.{no_cut, count_of, cut_ok};

use crate::Cut;

// The counts in one word, sender n's in byte n: one load.
fn packed(counts: [u8; 8]) -> u64
    ensures { result ≡ word (λ k. get_or counts k 0) 8 }
{
    u64::from_le_bytes(counts)
}

// The top bit of byte n is set where n is a member: of the set in each byte, byte n keeps bit n.
fn tops(set: u8) -> u64
    ensures { result ≡ word (λ k. cond (has set k) 128 0) 8 }
{
    let each = u64::from(set) * 0x0101010101010101;
    let members = each & 0x8040201008040201;
    (members + 0x7f7f7f7f7f7f7f7f) & 0x8080808080808080
}

impl Cut {
    // No cut: every count 0.
    pub fn none() -> Cut
        ensures { result ≡ no_cut }
    {
        Cut { counts: [0; 8] }
    }

    // The count of sender n: 0 above 7, as `count_of` has it. As View::start: a line each is plainer than one for both.
    #[tactic(auto, using(std::proofs::lemmas::List::get_or_past), unfolding(crate::specs::Cuts::count_of))]
    pub fn count(self, n: u8) -> u8
        ensures { result ≡ count_of self n }
    {
        self.counts.get(usize::from(n)).copied().unwrap_or(0)
    }

    // Whether the cut is well formed for a view with this set. All eight counts at once, by the top bit of each byte:
    // in t it says that the count is neither 0 nor 128, in c that it is 128 or more, in h that it is a member's.
    pub fn well_formed(self, set: u8) -> bool
        ensures { result ≡ cut_ok set self }
    {
        let c = packed(self.counts);
        let h = tops(set);
        let t = (c & 0x7f7f7f7f7f7f7f7f) + 0x7f7f7f7f7f7f7f7f;
        let bad = (t & c) | ((t | c) & !h);
        (bad & 0x8080808080808080) == 0
    }
}
