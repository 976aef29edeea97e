// The calls of the C interface, for a Rattle program: here messages, read and written by numbers in a field area and bytes in a byte area; the end-point's steps are in steps.
// nhuoseng_c exports the same calls under the same names, and goes by itself to what these go to.
#![tactic(auto)]

pub mod steps;

ghost use Rattle.std.specs.Prelude.{◌≡◌, ◌≤◌};
ghost use Rattle.messages.specs.Layouts.{length_of};
ghost use Rattle.messages.specs.Fields.{read_number, fields_read, number_written, area_written};

// How many bytes a message of this kind has: 0 where the number is no kind.
pub fn nh_length(kind: u8) -> u8
    ensures { result ≡ length_of kind }
{
    messages::length_of(kind)
}

// 0, and the message that the bytes are in the field area; or 1, and the field area as it was.
pub fn nh_read(bytes: &[u8], fields: &mut [u64]) -> u8
    ensures { (result ≡ read_number bytes.now fields.old) × (fields.new ≡ fields_read bytes.now fields.old) }
{
    u8::from(messages::read_fields(bytes, fields).is_err())
}

// 0, and the message that the fields are at the area's start; or 1, and the area as it was.
pub fn nh_write(fields: &[u64], area: &mut [u8]) -> u8
    ensures { (result ≡ number_written fields.now area.old) × (area.new ≡ area_written fields.now area.old) }
{
    u8::from(messages::write_fields(fields, area).is_err())
}
