// A message's fields stored in a field area.
ghost use Rattle.std.specs.Prelude.{◌≡◌};
ghost use Rattle.std.proofs.lemmas.List.Edits.{sets};
ghost use Rattle.messages.specs.Fields.{numbers_of, fields_of};

use crate::{Fields, Message};

fn give_numbers(m: Message, fields: &mut Fields)
    ensures { fields.new ≡ sets fields.old 0 (numbers_of m) }
{
    fields[0] = u64::from(m.kind);
    fields[1] = u64::from(m.number);
    fields[2] = u64::from(m.set);
    fields[3] = u64::from(m.sender);
    fields[4] = u64::from(m.index);
    fields[5] = m.word;
    fields[6] = u64::from(m.view.id);
    fields[7] = u64::from(m.view.set);
}

// The rows first: where they are blank, they are cleared in whole steps of their own. A function for both, generic in the number's type, would be longer than its two loops.
pub(crate) fn give(m: Message, fields: &mut Fields)
    ensures { fields.new ≡ fields_of m }
{
    'starts: for n in 0..8 {
        fields[8 + n] = u64::from(m.view.starts[n]);
    }
    'counts: for n in 0..8 {
        fields[16 + n] = u64::from(m.cut.counts[n]);
    }
    give_numbers(m, fields);
}
