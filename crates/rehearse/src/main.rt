// rehearse: plays a take, read from standard input, on real end-points, and writes what each step answers.
// Reading a line is in lines, values and commands; playing it in stage, desk, channels and packet; the answer in reply, show and text.
#![tactic(auto)]

ghost use Rattle.std.specs.Prelude.{◌≡◌, ◌≤◌, IfOk, length};

mod channels;
mod commands;
mod desk;
mod fault;
mod lines;
mod packet;
mod reply;
mod show;
mod stage;
mod text;
mod transcript;
mod values;

use channels::{Channels, Way};
use desk::Desk;
use fault::Fault;
use lines::Fields;
use stage::Stage;
use std::io;
use std::io::{Read, Stdin, Write};
use transcript::{PAGE, Transcript};

// How many bytes of a script are played; a longer one is refused.
const LONGEST: usize = 1048576;

// One byte more than a script may have tells that it is too long.
const ROOM: usize = 1048577;

// Reads until the room is full or the input ends, and returns how many bytes it put at the room's start. The only error is that of a read: what had come before
// it stands in the room, which has its length then too.
fn read_full(mut input: Stdin, room: &mut [u8]) -> io::Result<usize>
    ensures count { IfOk result (λ n. n ≤ length room.new) }
    ensures room_kept { length room.new ≡ length room.old }
{
    let mut done = 0;
    while done < room.len() {
        let n = input.read(&mut room[done..])?;
        if n == 0 {
            break;
        }
        done += n;
    }
    Ok(done)
}

// Each command's answer, after the number of its line.
fn play(
    script: &[u8],
    stage: &mut Stage<'_>,
    channels: &mut Channels,
    out: &mut Transcript<'_>,
) -> io::Result<()> {
    if LONGEST < script.len() {
        return writeln!(out, "error {}", Fault::Long);
    }
    for (number, line) in (1u64..).zip(script.split_inclusive(|&b| b == b'\n')) {
        let text = lines::text_of(line);
        if lines::is_blank(text) {
            continue;
        }
        let fields = Fields::of(text);
        match stage.play(channels, fields.as_slice()) {
            Ok(reply) => writeln!(out, "{number}: {reply}")?,
            Err(problem) => writeln!(out, "{number}: {problem}")?,
        }
    }
    Ok(())
}

// A read that fails is the error, and nothing is played then. What the page still holds goes out in any case.
fn run(
    input: Stdin,
    room: &mut [u8; ROOM],
    stage: &mut Stage<'_>,
    channels: &mut Channels,
    out: &mut Transcript<'_>,
) -> io::Result<()> {
    let room = &mut room[..];
    let count = read_full(input, room)?;
    let played = play(&room[..count], stage, channels, out);
    out.send();
    played
}

// All that a take needs lies here: no memory can run out on the way.
fn main(rt: HostRuntime) -> io::Result<()> {
    let mut room = [0u8; ROOM];
    let mut desks = [Desk::unmade(); 8];
    let mut stage = Stage::new(&mut desks);
    let mut channels = Channels {
        ways: [Way::empty(); 64],
    };
    let mut page = [0u8; PAGE];
    let mut out = Transcript::new(rt.stdout(), &mut page);
    run(rt.stdin(), &mut room, &mut stage, &mut channels, &mut out)?;
    out.written()
}
