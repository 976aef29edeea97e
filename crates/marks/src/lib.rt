// The marks of held words: which words of a sender are held, the run, and whether there is a gap. Each function is total and its promise fixes its answer.
#![tactic(auto)]

ghost use Rattle.std.specs.Prelude.{◌≡◌, ◌<◌, ◌≤◌};
ghost use Rattle.below.specs.Below.{run_below};
ghost use Rattle.below.specs.Bits.{bit};
ghost use Rattle.marks.specs.Bits.{with_bit};
ghost use Rattle.marks.specs.Beyond.{none_from};
ghost use Rattle.marks.specs.Held.{held_at, marked, run_of, no_gap, none_held};
ghost use Rattle.marks.specs.Marks.{row_of, held_in, run_in, no_gap_in, marked_in, no_marks};

// The marks of one sender in one slot: word i is bit i - 1 of low up to word 64, bit i - 65 of high after it.
#[repr(C)]
#[derive(Clone, Copy)]
pub struct Held {
    pub low: u64,
    pub high: u64,
}

// The marks of one slot, a row a sender.
#[repr(C)]
#[derive(Clone, Copy)]
pub struct Marks {
    pub rows: [Held; 8],
}

// Bit k of x is set.
#[tactic(auto, unfolding(below::specs::Bits::bit))]
fn bit_at(x: u64, k: u8) -> bool
    requires { k < 64 }
    ensures { result ≡ bit x k }
{
    (x >> k) % 2 == 1
}

// x with bit k set besides.
fn with_bit(x: u64, k: u8) -> u64
    requires { k < 64 }
    ensures { result ≡ with_bit x k }
{
    (1 << k) | x
}

// How many of the lowest bits are set, up to the first that is not.
fn low_run(x: u64) -> u8
    ensures value { result ≡ run_below (bit x) 64 }
    ensures within { result ≤ 64 }
{
    x.trailing_ones() as u8
}

// No bit from k on is set. No shift by 64 is allowed, so that end is apart.
fn none_from(x: u64, k: u8) -> bool
    requires { k ≤ 64 }
    ensures { result ≡ none_from (bit x) k 64 }
{
    64 <= k || (x >> k) == 0
}

impl Held {
    // No word is held.
    pub fn none() -> Held
        ensures { result ≡ none_held }
    {
        Held { low: 0, high: 0 }
    }

    // Word i is held; false where there is no word i.
    #[tactic(auto, using(crate::proofs::Packing::held_under, crate::proofs::Packing::held_low, crate::proofs::Packing::held_high, crate::proofs::Packing::held_out))]
    pub fn holds(self, i: u8) -> bool
        ensures { result ≡ held_at self i }
    {
        match i {
            1..=64 => bit_at(self.low, i - 1),
            65..=128 => bit_at(self.high, i - 65),
            _ => false,
        }
    }

    // Word i held besides; as it was where there is no word i.
    #[tactic(auto, using(crate::proofs::Packing::marked_under, crate::proofs::Packing::marked_low, crate::proofs::Packing::marked_high, crate::proofs::Packing::marked_out))]
    pub fn mark(&mut self, i: u8)
        ensures { self.new ≡ marked self.old i }
    {
        match i {
            1..=64 => self.low = with_bit(self.low, i - 1),
            65..=128 => self.high = with_bit(self.high, i - 65),
            _ => {}
        }
    }

    // The longest k with words 1 to k all held.
    pub fn run(self) -> u8
        ensures value { result ≡ run_of self }
        ensures within { result ≤ 128 }
    {
        let n = low_run(self.low);
        if n < 64 { n } else { 64 + low_run(self.high) }
    }

    // No word beyond the run is held.
    pub fn has_no_gap(self) -> bool
        ensures { result ≡ no_gap self }
    {
        let n = self.run();
        if n < 64 {
            self.high == 0 && none_from(self.low, n)
        } else {
            none_from(self.high, n - 64)
        }
    }
}

impl Marks {
    // No word of any sender is held.
    pub fn none() -> Marks
        ensures { result ≡ no_marks }
    {
        Marks {
            rows: [Held::none(); 8],
        }
    }

    // The row of sender r; nothing held past the last row.
    #[tactic(auto, unfolding(crate::specs::Marks::row_of))]
    fn row(&self, r: u8) -> Held
        ensures { result ≡ row_of self.now r }
    {
        self.rows
            .get(usize::from(r))
            .copied()
            .unwrap_or(Held::none())
    }

    // Word i of sender r is held; false for r above 7.
    #[tactic(auto, unfolding(crate::specs::Marks::held_in))]
    pub fn holds(&self, r: u8, i: u8) -> bool
        ensures { result ≡ held_in self.now r i }
    {
        self.row(r).holds(i)
    }

    // The run of sender r; 0 for r above 7, as `run_in` has it.
    #[tactic(auto, unfolding(crate::specs::Marks::run_in))]
    pub fn run(&self, r: u8) -> u8
        ensures value { result ≡ run_in self.now r }
        ensures within { result ≤ 128 }
    {
        self.row(r).run()
    }

    // The held words of sender r have no gap from word 1; true for r above 7.
    #[tactic(auto, unfolding(crate::specs::Marks::no_gap_in))]
    pub fn has_no_gap(&self, r: u8) -> bool
        ensures { result ≡ no_gap_in self.now r }
    {
        self.row(r).has_no_gap()
    }

    // Word i of sender r held besides; as it was for r above 7, or where there is no word i.
    #[tactic(auto, using(crate::proofs::Slot::marks_past, crate::proofs::Slot::array_length), unfolding(crate::specs::Marks::marked_in, crate::specs::Marks::row_of))]
    pub fn mark(&mut self, r: u8, i: u8)
        ensures { self.new ≡ marked_in self.old r i }
    {
        if r < 8 {
            self.rows[r as usize].mark(i);
        }
    }
}
