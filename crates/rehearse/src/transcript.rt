// Standard output, where a failed write ends nothing: what follows is played and written all the same.
ghost use Rattle.std.specs.Prelude.{◌≡◌, ◌≤◌, OnErr, OnOk};

use std::io;
use std::io::{Stdout, Write};

// What goes out at a time.
pub(crate) const PAGE: usize = 65536;

// A page that goes out where a byte finds it full, and how the writes went: the first error stays. As in sessions: a crate for the lines that they share would be no plainer.
#[derive(Drop)]
pub(crate) struct Transcript<'p> {
    page: &'p mut [u8; PAGE],
    filled: usize,
    out: Stdout,
    written: io::Result<()>,
    ghost within: { filled ≤ 65536 },
}

impl<'p> Transcript<'p> {
    pub(crate) fn new(out: Stdout, page: &'p mut [u8; PAGE]) -> Transcript<'p> {
        Transcript {
            page,
            filled: 0,
            out,
            written: Ok(()),
        }
    }

    fn note(&mut self, written: io::Result<()>)
        ensures kept { OnErr self.old.written (self.new.written ≡ self.old.written) }
        ensures taken { OnOk self.old.written (self.new.written ≡ written) }
    {
        if self.written.is_ok() {
            self.written = written;
        }
    }

    // What the page holds goes out.
    pub(crate) fn send(&mut self) {
        let written = self.out.write_all(&self.page[..self.filled]);
        self.note(written);
        self.filled = 0;
    }

    pub(crate) fn written(self) -> io::Result<()> {
        self.written
    }
}

impl Write for Transcript<'_> {
    // As much as the page has room for.
    fn write(&mut self, bytes: &[u8]) -> io::Result<usize> {
        if self.filled == PAGE {
            self.send();
        }
        let page = &mut *self.page;
        let room = &mut page[self.filled..];
        let count = room.len().min(bytes.len());
        room[..count].copy_from_slice(&bytes[..count]);
        self.filled += count;
        Ok(count)
    }

    // What the page has room for goes there at once, and what it has none for a byte at a time.
    fn write_all(&mut self, bytes: &[u8]) -> io::Result<()> {
        if bytes.len() <= PAGE - self.filled {
            let end = self.filled + bytes.len();
            let page = &mut *self.page;
            let room = &mut page[self.filled..end];
            room.copy_from_slice(bytes);
            self.filled = end;
            return Ok(());
        }
        for byte in bytes.chunks(1) {
            self.write(byte)?;
        }
        Ok(())
    }

    // A page waits until it is full, or the take has been played.
    fn flush(&mut self) -> io::Result<()> {
        Ok(())
    }
}
