// Plain text on standard output.
ghost use Rattle.std.specs.Prelude.{◌≡◌, OnErr, OnOk};

use std::fmt::{Display, Write};
use std::io::Stdout;
use std::{fmt, io};

// Standard output, and the first error of a write to it. What follows a failed write is played and written all the same. As rehearse's Transcript: a crate for the four lines that they share would be no plainer.
#[derive(Drop)]
pub(crate) struct Output {
    out: Stdout,
    failed: io::Result<()>,
}

impl Output {
    pub(crate) fn new(out: Stdout) -> Output {
        Output {
            out,
            failed: Ok(()),
        }
    }

    // The first error stays.
    fn note(&mut self, written: io::Result<()>)
        ensures kept { OnErr self.old.failed (self.new.failed ≡ self.old.failed) }
        ensures taken { OnOk self.old.failed (self.new.failed ≡ written) }
    {
        if self.failed.is_ok() {
            self.failed = written;
        }
    }

    // What `write!` and `writeln!` call. There is no error to hand on: it was noted.
    pub(crate) fn write_fmt<T: Display + Drop>(&mut self, text: T) {
        let _ = Write::write_fmt(self, text);
    }

    // The first error, where a write failed.
    pub(crate) fn finish(self) -> io::Result<()> {
        self.failed
    }
}

// Each part of a format is a write of its own. It always gives Ok, so that the parts after a failed write are written too.
impl Write for Output {
    fn write_str(&mut self, s: &str) -> fmt::Result {
        let written = self.out.write_all(s.as_bytes());
        self.note(written);
        Ok(())
    }
}
