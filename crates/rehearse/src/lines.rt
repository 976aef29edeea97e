// A line's fields.

// More fields than any command has: what follows them on a line is not looked at.
const TOO_MANY: usize = 13;

// The fields come first, and the places after them are empty, which no field is.
#[derive(Clone, Copy)]
pub(crate) struct Fields<'s> {
    places: [&'s [u8]; TOO_MANY],
    count: usize,
}

// A line without what ends it, a LF or a CR and a LF.
fn without_end(line: &[u8]) -> &[u8] {
    line.strip_suffix(b"\r\n")
        .or(line.strip_suffix(b"\n"))
        .unwrap_or(line)
}

// What is no comment of a line.
pub(crate) fn text_of(line: &[u8]) -> &[u8] {
    let line = without_end(line);
    let end = line.iter().position(|&b| b == b'#').unwrap_or(line.len());
    &line[..end]
}

fn is_space(b: u8) -> bool {
    b == b' ' || b == b'\t'
}

// Whether a text has no field: most lines of some takes, for which no fields are laid out.
pub(crate) fn is_blank(text: &[u8]) -> bool {
    text.iter().all(|&b| is_space(b))
}

impl<'s> Fields<'s> {
    // The fields between spaces and tabs.
    pub(crate) fn of(text: &'s [u8]) -> Fields<'s> {
        let found = text
            .split(|&b| is_space(b))
            .filter(|field| !field.is_empty());
        let mut places = [&text[..0]; TOO_MANY];
        for (place, field) in places.iter_mut().zip(found) {
            *place = field;
        }
        let count = places.iter().take_while(|field| !field.is_empty()).count();
        Fields { places, count }
    }

    pub(crate) fn as_slice(&self) -> &[&'s [u8]] {
        self.places
            .get(..self.count)
            .unwrap_or(self.places.as_slice())
    }
}
