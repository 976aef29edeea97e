// The whole of an end-point in words, each of its lines after a line break.
use crate::desk::Desk;
use crate::text::{Members, Spaced, ViewText, part};
use endpoint::{Change, EndPoint};
use marks::Marks;
use records::Records;
use slots::Slots;
use std::fmt;
use std::fmt::Display;

// The block state of the C interface: 0, 1 or 2.
fn block_name(block: u8) -> &'static str {
    match block {
        0 => "free",
        1 => "asked",
        _ => "blocked",
    }
}

fn change<W: fmt::Write>(f: &mut fmt::Formatter<W>, change: &Change) -> fmt::Result {
    part(f, "\n  start ", change.number)?;
    f.write_str(" ")?;
    Members(change.set).fmt(f)?;
    part(f, "\n  open ", change.opened)?;
    part(f, " pending ", change.pending)?;
    f.write_str(" block ")?;
    f.write_str(block_name(change.block))
}

// Its number, views, change, what it declared, passed out and gave out.
fn own<W: fmt::Write>(f: &mut fmt::Formatter<W>, point: &EndPoint) -> fmt::Result {
    part(f, "\n  end-point ", point.me)?;
    f.write_str("\n  current ")?;
    ViewText(&point.current).fmt(f)?;
    f.write_str("\n  membership ")?;
    ViewText(&point.membership).fmt(f)?;
    change(f, &point.change)?;
    f.write_str("\n  declared ")?;
    Members(point.declared).fmt(f)?;
    part(f, " announced ", point.told)?;
    part(f, " passed ", point.passed)?;
    f.write_str("\n  given")?;
    Spaced(&point.given).fmt(f)
}

// The view that each other member announced, and how many words came from it there.
fn others<W: fmt::Write>(f: &mut fmt::Formatter<W>, point: &EndPoint) -> fmt::Result {
    for (q, (view, received)) in (0u8..).zip(point.heard.iter().zip(point.received.iter())) {
        if q != point.me {
            part(f, "\n  announced ", q)?;
            f.write_str(" ")?;
            ViewText(view).fmt(f)?;
            part(f, " received ", *received)?;
        }
    }
    Ok(())
}

// Four records of a sender stand together, of which so many are held.
fn records<W: fmt::Write>(f: &mut fmt::Formatter<W>, records: &Records) -> fmt::Result {
    for (q, (held, count)) in (0u8..).zip(records.held.chunks(4).zip(records.counts.iter())) {
        for x in held.iter().take(usize::from(*count)) {
            part(f, "\n  record ", q)?;
            part(f, " ", x.number)?;
            f.write_str(" ")?;
            ViewText(&x.view).fmt(f)?;
            f.write_str(" cut")?;
            Spaced(&x.cut.counts).fmt(f)?;
        }
    }
    Ok(())
}

fn forwarded<W: fmt::Write>(f: &mut fmt::Formatter<W>, point: &EndPoint) -> fmt::Result {
    for (q, row) in point.forwarded.iter().enumerate() {
        part(f, "\n  forwarded ", q)?;
        Spaced(&row.marks).fmt(f)?;
    }
    Ok(())
}

fn tags<W: fmt::Write>(f: &mut fmt::Formatter<W>, slots: &Slots) -> fmt::Result {
    for (s, tag) in slots.tags.iter().enumerate() {
        part(f, "\n  slot ", s)?;
        if tag.used == 0 {
            f.write_str(" free")?;
        } else {
            f.write_str(" ")?;
            ViewText(&tag.view).fmt(f)?;
        }
    }
    Ok(())
}

// The words that are held in slot s.
fn words_in<W: fmt::Write>(
    f: &mut fmt::Formatter<W>,
    s: u8,
    held: &Marks,
    area: &[u64],
) -> fmt::Result {
    for (r, row) in (0u8..).zip(held.rows.iter()) {
        for i in 1..129u8 {
            if row.holds(i)
                && let Some(word) = area.get(slots::place(s, r, i))
            {
                part(f, "\n  word ", s)?;
                part(f, " ", r)?;
                part(f, " ", i)?;
                part(f, " ", *word)?;
            }
        }
    }
    Ok(())
}

fn words<W: fmt::Write>(f: &mut fmt::Formatter<W>, slots: &Slots, area: &[u64]) -> fmt::Result {
    for (s, (tag, held)) in (0u8..).zip(slots.tags.iter().zip(slots.marks.iter())) {
        if tag.used != 0 {
            words_in(f, s, held, area)?;
        }
    }
    Ok(())
}

impl fmt::Display for Desk {
    fn fmt<W: fmt::Write>(&self, f: &mut fmt::Formatter<W>) -> fmt::Result {
        let point = &self.point;
        own(f, point)?;
        others(f, point)?;
        records(f, &point.records)?;
        forwarded(f, point)?;
        tags(f, &point.slots)?;
        words(f, &point.slots, &self.area)
    }
}
