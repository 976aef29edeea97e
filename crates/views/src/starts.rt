// Tests on views.
ghost use Rattle.std.specs.Prelude.{◌≡◌, ◌<◌, ◌≤◌, get_or};
ghost use Rattle.views.specs.Sets.{has};
ghost use Rattle.views.specs.Views.{no_view, initial as initial_of, start_of, start_fits, all_zero, starts_fit, starts_same, view_ok, same as same_of};

use crate::{View, sets};

// Whether all start numbers are 0.
pub fn starts_zero(starts: &[u32; 8]) -> bool
    ensures { result ≡ all_zero starts.now }
{
    *starts == [0; 8]
}

// The set comes as wide as a start number: all eight tests are then of one width.
fn start_fits(set: u32, n: usize, start: u32) -> bool
    requires { n < 8 }
    ensures { result ≡ start_fits (has set n) start }
{
    (start != 0) == ((set >> n) % 2 == 1)
}

// The loop has no way out but its end: a few vector instructions.
#[tactic(auto, using(below::proofs::All::alls), unfolding(crate::specs::Views::starts_fit))]
fn starts_fit(set: u8, starts: &[u32; 8]) -> bool
    ensures { result ≡ starts_fit set starts.now }
{
    let mut ok = true;
    for (n, &start) in starts.iter().enumerate() {
        ok &= start_fits(u32::from(set), n, start);
    }
    ok
}

impl View {
    // No view: what stands where there is none.
    pub fn none() -> View
        ensures { result ≡ no_view }
    {
        View {
            starts: [0; 8],
            id: 0,
            set: 0,
        }
    }

    // Member p's initial view.
    pub fn initial(p: u8) -> View
        ensures { result ≡ initial_of p }
    {
        View {
            set: sets::only(p),
            ..View::none()
        }
    }

    // The start number of member n: 0 above 7, as `start_of` has it.
    #[tactic(auto, using(std::proofs::lemmas::List::get_or_past), unfolding(crate::specs::Views::start_of))]
    pub fn start(self, n: u8) -> u32
        ensures { result ≡ start_of self n }
    {
        self.starts.get(usize::from(n)).copied().unwrap_or(0)
    }

    // Whether the view is well formed.
    #[tactic(auto, using(below::proofs::Tests::picks), unfolding(crate::specs::Views::view_ok))]
    pub fn well_formed(self) -> bool
        ensures { result ≡ view_ok self }
    {
        if self.id == 0 {
            sets::size(self.set) == 1 && starts_zero(&self.starts)
        } else {
            self.set != 0 && starts_fit(self.set, &self.starts)
        }
    }

    // Whether two views are the same: all three parts are.
    #[tactic(auto, using(below::proofs::Tests::picks, crate::proofs::Sameness::starts_tested), unfolding(crate::specs::Views::same))]
    pub fn same(self, other: View) -> bool
        ensures { result ≡ same_of self other }
    {
        self.id == other.id && self.set == other.set && self.starts == other.starts
    }
}
