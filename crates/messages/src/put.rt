// Parts written into bytes, where the area has room: area and place as two, as in get.
ghost use Rattle.std.specs.Prelude.{◌≡◌, ◌+◌, ◌≤◌, length};
ghost use Rattle.std.proofs.lemmas.List.Edits.{sets};
ghost use Rattle.messages.specs.Bytes.{le, row, view_body, cut_bytes};

use views::{Cut, View};

fn put_part(area: &mut [u8], at: usize, part: &[u8])
    requires { at + length part.now ≤ length area.old }
    ensures { area.new ≡ sets area.old at part.now }
{
    area[at..at + part.len()].copy_from_slice(part);
}

pub(crate) fn put_byte(area: &mut [u8], at: usize, x: u8)
    requires { at + 1 ≤ length area.old }
    ensures { area.new ≡ sets area.old at (le 1 x) }
{
    area[at] = x;
}

#[tactic(auto, using(crate::proofs::Parts::number_bytes))]
pub(crate) fn put_number(area: &mut [u8], at: usize, number: u32)
    requires { at + 4 ≤ length area.old }
    ensures { area.new ≡ sets area.old at (le 4 number) }
{
    put_part(area, at, &number.to_le_bytes());
}

// As put_number: a line each is plainer than one for both.
pub(crate) fn put_word(area: &mut [u8], at: usize, word: u64)
    requires { at + 8 ≤ length area.old }
    ensures { area.new ≡ sets area.old at (le 8 word) }
{
    put_part(area, at, &word.to_le_bytes());
}

fn put_starts(area: &mut [u8], at: usize, starts: &[u32; 8])
    requires { at + 32 ≤ length area.old }
    ensures { area.new ≡ sets area.old at (row 4 starts.now) }
{
    for (n, &start) in starts.iter().enumerate() {
        put_number(area, at + 4 * n, start);
    }
}

pub(crate) fn put_view(area: &mut [u8], at: usize, v: View)
    requires { at + 37 ≤ length area.old }
    ensures { area.new ≡ sets area.old at (view_body v) }
{
    put_number(area, at, v.id);
    put_byte(area, at + 4, v.set);
    put_starts(area, at + 5, &v.starts);
}

pub(crate) fn put_cut(area: &mut [u8], at: usize, cut: Cut)
    requires { at + 8 ≤ length area.old }
    ensures { area.new ≡ sets area.old at (cut_bytes cut) }
{
    put_part(area, at, &cut.counts);
}
