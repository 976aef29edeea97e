// Whether a field area is a message of a kind, part by part. Each call names the kind, so that the compiler leaves only its tests.
ghost use Rattle.std.specs.Prelude.{◌≡◌, ◌≤◌};
ghost use Rattle.messages.specs.Kinds.{code_of};
ghost use Rattle.messages.specs.Fields.{narrow_row};
ghost use Rattle.messages.specs.Fits.{below_or_zero, numbers_fit, cut_fields_fit, view_fields_fit, fields_are};

use crate::formed::{place_fits, word_fits};
use crate::take::{cut_of, view_of};
use crate::{Fields, Kind};

fn below_or_zero(has: bool, top: u64, x: u64) -> bool
    ensures { result ≡ below_or_zero has top x }
{
    if has { x < top } else { x == 0 }
}

#[inline(always)]
fn numbers_fit(fields: &Fields, kind: Kind) -> bool
    ensures { result ≡ numbers_fit fields.now (code_of kind) }
{
    below_or_zero(kind.has_number(), 1 << 32, fields[1])
        & place_fits(kind, fields[3], fields[4])
        & word_fits(kind, fields[5])
        & below_or_zero(kind.has_set(), 1 << 8, fields[2])
}

// Eight fields from this one on are below a bound. The loop has no way out but its end: a few vector instructions.
#[tactic(auto, using(below::proofs::All::alls))]
fn narrow_row(fields: &Fields, at: usize, top: u64) -> bool
    requires { at ≤ 16 }
    ensures { result ≡ narrow_row fields.now at top }
{
    let mut ok = true;
    for n in 0..8 {
        ok &= fields[at + n] < top;
    }
    ok
}

#[inline(always)]
fn cut_fits(fields: &Fields, kind: Kind) -> bool
    ensures { result ≡ cut_fields_fit fields.now (code_of kind) }
{
    if kind.has_cut() {
        narrow_row(fields, 16, 1 << 8) && cut_of(fields).well_formed((fields[7] % 256) as u8)
    } else {
        narrow_row(fields, 16, 1)
    }
}

fn view_fits(fields: &Fields, kind: Kind) -> bool
    ensures { result ≡ view_fields_fit fields.now (code_of kind) }
{
    // The rows first: both branches then begin with the same loads.
    if kind.has_view() {
        let starts = narrow_row(fields, 8, 1 << 32);
        let narrow = (fields[6] < 1 << 32) & (fields[7] < 1 << 8) & starts;
        narrow && view_of(fields).well_formed()
    } else {
        let starts = narrow_row(fields, 8, 1);
        (fields[6] == 0) & (fields[7] == 0) & starts
    }
}

#[inline(always)]
pub(crate) fn fields_are(fields: &Fields, kind: Kind) -> bool
    ensures { result ≡ fields_are fields.now (code_of kind) }
{
    numbers_fit(fields, kind) & cut_fits(fields, kind) & view_fits(fields, kind)
}
