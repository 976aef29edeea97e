// Whether a view is spent.
ghost use Rattle.std.specs.Prelude.{◌≡◌};
ghost use Rattle.slots.specs.Spent.{spent_at};

use views::View;

// What an end-point's views are held against: its own number, its current view, its latest start number, and whether a change is pending.
#[derive(Clone, Copy)]
pub struct Standing {
    pub me: u8,
    pub current: View,
    pub latest: u32,
    pub pending: bool,
}

impl Standing {
    // Above the current id v is another view, so that all of two views is compared only up to it.
    pub fn has_spent(&self, v: View) -> bool
        ensures { result ≡ spent_at self.now v }
    {
        if v.id <= self.current.id {
            return !v.same(self.current);
        }
        let start = v.start(self.me);
        start < self.latest || (start == self.latest && !self.pending)
    }
}
