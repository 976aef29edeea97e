// Words of the lent area: the one at a place, and whether another is held there.
ghost use Rattle.std.specs.Prelude.{not, ◌&&◌, ◌≡◌, eqb, get_or};
ghost use Rattle.marks.specs.Marks.{held_in};
ghost use Rattle.slots.specs.Slots.{place};

use marks::Marks;

// The word at a place of the area: 0 past its end, which its promise says.
pub fn word_at(area: &[u64], at: usize) -> u64
    ensures { result ≡ get_or area.now at 0 }
{
    area.get(at).copied().unwrap_or(0)
}

// Whether another word is held at the place of word i of r in slot s.
pub fn other_word(m: &Marks, area: &[u64], s: u8, r: u8, i: u8, w: u64) -> bool
    ensures { result ≡ (held_in m.now r i && not (eqb (get_or area.now (place s r i) 0) w)) }
{
    m.holds(r, i) && word_at(area, slots::place(s, r, i)) != w
}
