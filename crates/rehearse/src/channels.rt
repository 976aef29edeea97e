// The channels between eight members.
use crate::packet::Packet;
use std::fmt;
use views::sets;

// A channel takes no more messages than this.
const MOST: usize = 256;

// The messages on their way from one member to another: a ring, whose head comes first.
#[derive(Clone, Copy)]
pub(crate) struct Way {
    ring: [Packet; MOST],
    head: u8,
    length: usize,
}

impl Way {
    pub(crate) fn empty() -> Way {
        Way {
            ring: [Packet::blank(); MOST],
            head: 0,
            length: 0,
        }
    }

    fn has_room(&self) -> bool {
        self.length < MOST
    }

    // A way without room stays as it is.
    fn push_back(&mut self, packet: Packet) {
        if self.length < MOST {
            self.ring[(usize::from(self.head) + self.length) % MOST] = packet;
            self.length += 1;
        }
    }

    fn front(&self) -> Option<Packet> {
        if self.length == 0 {
            return None;
        }
        Some(self.ring[usize::from(self.head)])
    }

    fn pop_front(&mut self) {
        if self.length != 0 {
            self.head = self.head.wrapping_add(1);
            self.length -= 1;
        }
    }

    fn pop_back(&mut self) {
        self.length = self.length.saturating_sub(1);
    }
}

// Each message on a line, head first.
impl fmt::Display for Way {
    fn fmt<W: fmt::Write>(&self, f: &mut fmt::Formatter<W>) -> fmt::Result {
        let head = usize::from(self.head);
        let ahead = &self.ring[head..];
        let wrapped = &self.ring[..head];
        for packet in ahead.iter().chain(wrapped).take(self.length) {
            write!(f, "\n  {packet}")?;
        }
        Ok(())
    }
}

// The way from p to q is at 8p + q.
#[derive(Drop)]
pub(crate) struct Channels {
    pub(crate) ways: [Way; 64],
}

// Where the way from one member to another is: members above 7 have none.
fn place(from: u8, to: u8) -> Option<usize> {
    if 7 < from || 7 < to {
        return None;
    }
    Some(usize::from(from) * 8 + usize::from(to))
}

impl Channels {
    pub(crate) fn way(&self, from: u8, to: u8) -> Option<&Way> {
        self.ways.get(place(from, to)?)
    }

    fn way_mut(&mut self, from: u8, to: u8) -> Option<&mut Way> {
        self.ways.get_mut(place(from, to)?)
    }

    // Whether each channel to a member of the set takes one more.
    pub(crate) fn have_room(&self, from: u8, set: u8) -> bool {
        (0..8).all(|to| !sets::contains(set, to)
            || self.way(from, to).is_none_or(|way| way.has_room()))
    }

    // A message goes to the end of each channel to a member of the set.
    pub(crate) fn send(&mut self, from: u8, set: u8, packet: Packet) {
        for to in 0..8 {
            if sets::contains(set, to)
                && let Some(way) = self.way_mut(from, to)
            {
                way.push_back(packet);
            }
        }
    }

    pub(crate) fn head(&self, from: u8, to: u8) -> Option<Packet> {
        self.way(from, to)?.front()
    }

    // The head leaves the channel.
    pub(crate) fn take(&mut self, from: u8, to: u8) {
        if let Some(way) = self.way_mut(from, to) {
            way.pop_front();
        }
    }

    // The last message leaves the channel.
    pub(crate) fn lose(&mut self, from: u8, to: u8) {
        if let Some(way) = self.way_mut(from, to) {
            way.pop_back();
        }
    }
}
