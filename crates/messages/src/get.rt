// Parts read from bytes, where the bytes have them. Bytes and place go in as two: a cursor would be made for each part, and its place is fixed by the layout.
ghost use Rattle.std.specs.Prelude.{◌≡◌, ◌+◌, ◌<◌, ◌≤◌, length, take, drop};
ghost use Rattle.messages.specs.Bytes.{number_at, row_at, view_at, cut_at};

use views::{Cut, View};

// The W bytes from this place on.
fn part_at<const W: usize>(bytes: &[u8], at: usize) -> [u8; W]
    requires { at + W ≤ length bytes.now }
    ensures { result ≡ take W (drop at bytes.now) }
{
    let mut part = [0; W];
    part.copy_from_slice(&bytes[at..at + W]);
    part
}

pub(crate) fn byte_at(bytes: &[u8], at: usize) -> u8
    requires { at < length bytes.now }
    ensures { result ≡ number_at 1 bytes.now at }
{
    bytes[at]
}

pub(crate) fn number_at(bytes: &[u8], at: usize) -> u32
    requires { at + 4 ≤ length bytes.now }
    ensures { result ≡ number_at 4 bytes.now at }
{
    u32::from_le_bytes(part_at(bytes, at))
}

// As number_at: a line each is plainer than one for both.
pub(crate) fn word_at(bytes: &[u8], at: usize) -> u64
    requires { at + 8 ≤ length bytes.now }
    ensures { result ≡ number_at 8 bytes.now at }
{
    u64::from_le_bytes(part_at(bytes, at))
}

#[tactic(auto, using(below::proofs::Lists::fills), unfolding(crate::specs::Bytes::row_at))]
fn starts_at(bytes: &[u8], at: usize) -> [u32; 8]
    requires { at + 32 ≤ length bytes.now }
    ensures { result ≡ row_at 4 bytes.now at }
{
    let mut starts = [0; 8];
    for n in 0..8 {
        starts[n] = number_at(bytes, at + 4 * n);
    }
    starts
}

pub(crate) fn view_at(bytes: &[u8], at: usize) -> View
    requires { at + 37 ≤ length bytes.now }
    ensures { result ≡ view_at bytes.now at }
{
    View {
        starts: starts_at(bytes, at + 5),
        id: number_at(bytes, at),
        set: byte_at(bytes, at + 4),
    }
}

pub(crate) fn cut_at(bytes: &[u8], at: usize) -> Cut
    requires { at + 8 ≤ length bytes.now }
    ensures { result ≡ cut_at bytes.now at }
{
    Cut {
        counts: part_at(bytes, at),
    }
}
