// A line's fields as a command, or what is wrong with them.
use crate::fault::Fault;
use crate::{packet, values};
use messages::Message;
use views::View;

// The first number is the end-point's; a channel goes from the first to the second. A step's fields are read once its end-point is known.
#[derive(Clone, Copy)]
pub(crate) enum Command<'s> {
    Fresh(u8),
    Lose(u8, u8),
    Channel(u8, u8),
    At(u8, &'s [&'s [u8]]),
}

// What is asked of one end-point: its steps, and two ways to look at it. Data, played by one match in desk.
#[derive(Clone, Copy)]
pub(crate) enum Step {
    Send(u64),
    BlockOk,
    Start(u32, u8),
    View(View),
    Receive(u8),
    Bytes(u8, Message),
    Ask,
    Declare,
    Announce,
    Pass,
    Sync,
    Forward(u8, u8),
    Give(u8),
    Batch(u8, u8),
    Install,
    Show,
    Area,
}

fn member(field: &[u8]) -> Result<u8, Fault> {
    values::number(field).ok_or(Fault::Member)
}

fn channel(from: &[u8], to: &[u8]) -> Result<(u8, u8), Fault> {
    let ends = (member(from)?, member(to)?);
    if 7 < ends.0 || 7 < ends.1 {
        return Err(Fault::NoChannel);
    }
    Ok(ends)
}

fn room(field: &[u8]) -> Result<u8, Fault> {
    let words = values::number(field).ok_or(Fault::Room)?;
    if 128 < words {
        return Err(Fault::Room);
    }
    Ok(words)
}

fn message_in(hex: &[u8]) -> Result<Message, Fault> {
    let mut room = [0u8; 64];
    Ok(packet::message_of(values::bytes(hex, &mut room)?))
}

impl<'s> Command<'s> {
    pub(crate) fn read(fields: &'s [&'s [u8]]) -> Result<Command<'s>, Fault> {
        match fields {
            [b"fresh", p] => Ok(Command::Fresh(member(p)?)),
            [b"lose", p, q] => {
                let (p, q) = channel(p, q)?;
                Ok(Command::Lose(p, q))
            }
            [b"channel", p, q] => {
                let (p, q) = channel(p, q)?;
                Ok(Command::Channel(p, q))
            }
            [b"fresh" | b"lose" | b"channel", ..] => Err(Fault::Count),
            [p, step @ ..] => {
                let p = values::number(p).ok_or(Fault::Name)?;
                Ok(Command::At(p, step))
            }
            [] => Err(Fault::Name),
        }
    }
}

// The steps whose name says all.
fn plain(name: &[u8]) -> Option<Step> {
    match name {
        b"ask" => Some(Step::Ask),
        b"block-ok" => Some(Step::BlockOk),
        b"declare" => Some(Step::Declare),
        b"announce" => Some(Step::Announce),
        b"pass" => Some(Step::Pass),
        b"sync" => Some(Step::Sync),
        b"install" => Some(Step::Install),
        b"show" => Some(Step::Show),
        b"area" => Some(Step::Area),
        _ => None,
    }
}

impl Step {
    // The fields after the end-point's number.
    pub(crate) fn read(fields: &[&[u8]]) -> Result<Step, Fault> {
        match fields {
            [b"send", w] => Ok(Step::Send(values::number(w).ok_or(Fault::Word)?)),
            [b"receive", q] => Ok(Step::Receive(member(q)?)),
            [b"give", q] => Ok(Step::Give(member(q)?)),
            [b"start", n, set] => Ok(Step::Start(
                values::number(n).ok_or(Fault::Number)?,
                values::set(set).ok_or(Fault::Set)?,
            )),
            [b"bytes", q, hex] => {
                let q = member(q)?;
                Ok(Step::Bytes(q, message_in(hex)?))
            }
            [b"forward", q, r] => Ok(Step::Forward(member(q)?, member(r)?)),
            [b"batch", q, k] => Ok(Step::Batch(member(q)?, room(k)?)),
            [b"view", id, set, starts @ ..] if starts.len() == 8 => {
                let view = values::view(id, set, starts).ok_or(Fault::View)?;
                Ok(Step::View(view))
            }
            [
                b"send"
                | b"receive"
                | b"give"
                | b"start"
                | b"bytes"
                | b"forward"
                | b"batch"
                | b"view",
                ..
            ] => Err(Fault::Count),
            [name, more @ ..] => {
                let step = plain(name).ok_or(Fault::Name)?;
                if !more.is_empty() {
                    return Err(Fault::Count);
                }
                Ok(step)
            }
            [] => Err(Fault::Name),
        }
    }
}
