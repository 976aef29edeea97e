// How numbers, sets, views and lists of numbers are printed.
use itoa::{Buffer, Integer};
use std::fmt;
use std::fmt::Display;
use views::{View, sets};

// In decimal: itoa's digits, and no options to look at.
pub(crate) fn number<W: fmt::Write, N: Integer>(f: &mut fmt::Formatter<W>, n: N) -> fmt::Result {
    f.write_str(Buffer::new().format(n))
}

// A text, then a number.
pub(crate) fn part<W: fmt::Write, N: Integer>(
    f: &mut fmt::Formatter<W>,
    before: &str,
    n: N,
) -> fmt::Result {
    f.write_str(before)?;
    number(f, n)
}

// As {0,2,5}.
#[derive(Clone, Copy)]
pub(crate) struct Members(pub u8);

impl Display for Members {
    fn fmt<W: fmt::Write>(&self, f: &mut fmt::Formatter<W>) -> fmt::Result {
        let mut before = "{";
        for n in 0..8u8 {
            if sets::contains(self.0, n) {
                part(f, before, n)?;
                before = ",";
            }
        }
        f.write_str(if self.0 == 0 { "{}" } else { "}" })
    }
}

// Each item after a space.
#[derive(Clone, Copy)]
pub(crate) struct Spaced<'a, T>(pub &'a [T]);

impl<T: Integer> Display for Spaced<'_, T> {
    fn fmt<W: fmt::Write>(&self, f: &mut fmt::Formatter<W>) -> fmt::Result {
        for item in self.0 {
            part(f, " ", *item)?;
        }
        Ok(())
    }
}

// A view's id, set and start numbers.
#[derive(Clone, Copy)]
pub(crate) struct ViewText<'a>(pub &'a View);

impl Display for ViewText<'_> {
    fn fmt<W: fmt::Write>(&self, f: &mut fmt::Formatter<W>) -> fmt::Result {
        let view = self.0;
        number(f, view.id)?;
        f.write_str(" ")?;
        Members(view.set).fmt(f)?;
        Spaced(&view.starts).fmt(f)
    }
}
