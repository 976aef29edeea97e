// A view and a cut taken from the fields of a field area, where no number is too large for its field. The two loops differ in a type, a place and a bound: a trait of what fits would be longer than they are.
ghost use Rattle.std.specs.Prelude.{◌≡◌, true};
ghost use Rattle.messages.specs.Fields.{narrow_counts, message_of};
ghost use Rattle.messages.specs.Fits.{narrow_view};

use crate::Fields;
use views::{Cut, View};

pub(crate) fn view_of(fields: &Fields) -> View
    requires { narrow_view fields.now ≡ true }
    ensures { result ≡ (message_of fields.now).view }
{
    let mut starts = [0; 8];
    for n in 0..8 {
        starts[n] = fields[8 + n] as u32;
    }
    View {
        starts,
        id: fields[6] as u32,
        set: fields[7] as u8,
    }
}

pub(crate) fn cut_of(fields: &Fields) -> Cut
    requires { narrow_counts fields.now ≡ true }
    ensures { result ≡ (message_of fields.now).cut }
{
    let mut counts = [0; 8];
    for n in 0..8 {
        counts[n] = fields[16 + n] as u8;
    }
    Cut { counts }
}
