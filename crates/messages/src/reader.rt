// A message read from bytes straight into a field area, kind by kind: only the parts that the kind has are tested. All bytes are read before the first field is stored.
ghost use Rattle.std.specs.Prelude.{◌≡◌, ◌⊎◌, IfErr};
ghost use Rattle.messages.specs.declared.kind.Kind.TheVariants.{View, Word, Sync, Forward, StartChange, MembershipView};
ghost use Rattle.messages.specs.Fields.{read_number, fields_read};
ghost use Rattle.messages.specs.Refusals.{number_of, unread_into, HasKind, IsRead};

use crate::formed::place_fits;
use crate::get::{byte_at, cut_at, number_at, view_at, word_at};
use crate::give::give;
use crate::{Fields, Kind, Message, Refusal};

// A view or a membership view.
fn read_view(bytes: &[u8], kind: Kind, fields: &mut Fields) -> Result<(), Refusal>
    requires has_kind { HasKind bytes.now kind }
    requires is_view { (kind ≡ View) ⊎ (kind ≡ MembershipView) }
    ensures { IsRead result bytes.now fields.old fields.new }
{
    let view = view_at(bytes, 1);
    if !view.well_formed() {
        return Err(Refusal::Malformed);
    }
    give(Message::of_view(kind.into(), view), fields);
    Ok(())
}

fn read_word(bytes: &[u8], fields: &mut Fields) -> Result<(), Refusal>
    requires { HasKind bytes.now Word }
    ensures { IsRead result bytes.now fields.old fields.new }
{
    give(Message::of_word(word_at(bytes, 1)), fields);
    Ok(())
}

fn read_sync(bytes: &[u8], fields: &mut Fields) -> Result<(), Refusal>
    requires { HasKind bytes.now Sync }
    ensures { IsRead result bytes.now fields.old fields.new }
{
    let number = number_at(bytes, 1);
    let view = view_at(bytes, 5);
    let cut = cut_at(bytes, 42);
    if !cut.well_formed(view.set) {
        return Err(Refusal::Malformed);
    }
    if !view.well_formed() {
        return Err(Refusal::Malformed);
    }
    give(Message::of_sync(number, view, cut), fields);
    Ok(())
}

fn read_forward(bytes: &[u8], fields: &mut Fields) -> Result<(), Refusal>
    requires { HasKind bytes.now Forward }
    ensures { IsRead result bytes.now fields.old fields.new }
{
    let sender = byte_at(bytes, 1);
    let index = byte_at(bytes, 2);
    let view = view_at(bytes, 3);
    let word = word_at(bytes, 40);
    if !place_fits(Kind::Forward, u64::from(sender), u64::from(index)) {
        return Err(Refusal::Malformed);
    }
    if !view.well_formed() {
        return Err(Refusal::Malformed);
    }
    give(Message::of_forward(sender, index, view, word), fields);
    Ok(())
}

fn read_start_change(bytes: &[u8], fields: &mut Fields) -> Result<(), Refusal>
    requires { HasKind bytes.now StartChange }
    ensures { IsRead result bytes.now fields.old fields.new }
{
    let number = number_at(bytes, 1);
    let set = byte_at(bytes, 5);
    give(Message::of_start_change(number, set), fields);
    Ok(())
}

// The message that the bytes are, in the field area; where it is refused, the field area stays as it was.
pub fn read_fields(bytes: &[u8], fields: &mut [u64]) -> Result<(), Refusal>
    ensures number { number_of result ≡ read_number bytes.now fields.old }
    ensures fields { fields.new ≡ fields_read bytes.now fields.old }
    ensures reason { IfErr result (λ e. e ≡ unread_into fields.old) }
{
    let Some(fields) = fields.as_mut_array() else {
        return Err(Refusal::NotFields);
    };
    if bytes.is_empty() {
        return Err(Refusal::Malformed);
    }
    let kind = Kind::try_from(bytes[0])?;
    if bytes.len() != usize::from(kind.length()) {
        return Err(Refusal::Malformed);
    }
    match kind {
        Kind::View | Kind::MembershipView => read_view(bytes, kind, fields),
        Kind::Word => read_word(bytes, fields),
        Kind::Sync => read_sync(bytes, fields),
        Kind::Forward => read_forward(bytes, fields),
        Kind::StartChange => read_start_change(bytes, fields),
    }
}
