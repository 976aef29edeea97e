// A message written from a field area straight into bytes, kind by kind. All fields are taken before the first byte is stored.
ghost use Rattle.std.specs.Prelude.{◌≡◌, ◌⊎◌, IfErr, OnOk, OnErr, get_or, leb, length};
ghost use Rattle.messages.specs.Layouts.{length_of};
ghost use Rattle.messages.specs.declared.kind.Kind.TheVariants.{View, Word, Sync, Forward, StartChange, MembershipView};
ghost use Rattle.messages.specs.Kinds.{code_of};
ghost use Rattle.messages.specs.Fields.{number_written, area_written};
ghost use Rattle.messages.specs.Refusals.{number_of, unwritten_from, IsTestedAs, Fits, IsWritten};

use crate::fit::fields_are;
use crate::put::{put_byte, put_cut, put_number, put_view, put_word};
use crate::take::{cut_of, view_of};
use crate::{Fields, Kind, Refusal};

// Whether the area has room for a message of this kind.
#[inline(always)]
fn has_room(area: &[u8], kind: Kind) -> bool
    ensures { result ≡ leb (length_of (code_of kind)) (length area.now) }
{
    usize::from(kind.length()) <= area.len()
}

// Whether the fields are a message that the area has room for. Each call names the kind, so that the compiler leaves only its tests, where it is inlined.
#[inline(always)]
fn test(fields: &Fields, kind: Kind, area: &[u8]) -> Result<(), Refusal>
    requires { IsTestedAs fields.now kind }
    ensures ok { OnOk result (Fits fields.now kind area.now) }
    ensures err { OnErr result (IsWritten result fields.now area.now area.now) }
{
    if !fields_are(fields, kind) {
        return Err(Refusal::Malformed);
    }
    if !has_room(area, kind) {
        return Err(Refusal::NoRoom);
    }
    Ok(())
}

// A view or a membership view: the same tests.
fn write_view(fields: &Fields, kind: Kind, area: &mut [u8]) -> Result<(), Refusal>
    requires first { get_or fields.now 0 0 ≡ code_of kind }
    requires is_view { (kind ≡ View) ⊎ (kind ≡ MembershipView) }
    ensures { IsWritten result fields.now area.old area.new }
{
    test(fields, Kind::View, area)?;
    let view = view_of(fields);
    put_byte(area, 0, kind.into());
    put_view(area, 1, view);
    Ok(())
}

fn write_word(fields: &Fields, area: &mut [u8]) -> Result<(), Refusal>
    requires { get_or fields.now 0 0 ≡ code_of Word }
    ensures { IsWritten result fields.now area.old area.new }
{
    test(fields, Kind::Word, area)?;
    put_byte(area, 0, Kind::Word.into());
    put_word(area, 1, fields[5]);
    Ok(())
}

fn write_sync(fields: &Fields, area: &mut [u8]) -> Result<(), Refusal>
    requires { get_or fields.now 0 0 ≡ code_of Sync }
    ensures { IsWritten result fields.now area.old area.new }
{
    test(fields, Kind::Sync, area)?;
    let number = fields[1] as u32;
    let view = view_of(fields);
    let cut = cut_of(fields);
    put_byte(area, 0, Kind::Sync.into());
    put_number(area, 1, number);
    put_view(area, 5, view);
    put_cut(area, 42, cut);
    Ok(())
}

fn write_forward(fields: &Fields, area: &mut [u8]) -> Result<(), Refusal>
    requires { get_or fields.now 0 0 ≡ code_of Forward }
    ensures { IsWritten result fields.now area.old area.new }
{
    test(fields, Kind::Forward, area)?;
    let sender = fields[3] as u8;
    let index = fields[4] as u8;
    let view = view_of(fields);
    let word = fields[5];
    put_byte(area, 0, Kind::Forward.into());
    put_byte(area, 1, sender);
    put_byte(area, 2, index);
    put_view(area, 3, view);
    put_word(area, 40, word);
    Ok(())
}

fn write_start_change(fields: &Fields, area: &mut [u8]) -> Result<(), Refusal>
    requires { get_or fields.now 0 0 ≡ code_of StartChange }
    ensures { IsWritten result fields.now area.old area.new }
{
    test(fields, Kind::StartChange, area)?;
    let number = fields[1] as u32;
    let set = fields[2] as u8;
    put_byte(area, 0, Kind::StartChange.into());
    put_number(area, 1, number);
    put_byte(area, 5, set);
    Ok(())
}

// The message that the fields are, at the area's start; where it is refused, the area stays as it was.
pub fn write_fields(fields: &[u64], area: &mut [u8]) -> Result<(), Refusal>
    ensures number { number_of result ≡ number_written fields.now area.old }
    ensures area { area.new ≡ area_written fields.now area.old }
    ensures reason { IfErr result (λ e. e ≡ unwritten_from fields.now) }
{
    let Some(fields) = fields.as_array() else {
        return Err(Refusal::NotFields);
    };
    let kind = Kind::try_from(fields[0])?;
    match kind {
        Kind::View | Kind::MembershipView => write_view(fields, kind, area),
        Kind::Word => write_word(fields, area),
        Kind::Sync => write_sync(fields, area),
        Kind::Forward => write_forward(fields, area),
        Kind::StartChange => write_start_change(fields, area),
    }
}
