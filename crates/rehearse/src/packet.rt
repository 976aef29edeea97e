// A message in bytes, as a channel holds it: the codec of the library, one call a direction.
use messages::Message;
use std::fmt;

// A message's bytes, as many as its kind has, and zeros after them. An array, longer than any message: it is copied into each channel.
#[derive(Clone, Copy)]
pub(crate) struct Packet([u8; 64]);

// Bytes that are no message are a message of no kind: each step refuses it.
pub(crate) fn message_of(bytes: &[u8]) -> Message {
    messages::read(bytes).unwrap_or(Message::blank(0))
}

impl Packet {
    pub(crate) fn blank() -> Packet {
        Packet([0u8; 64])
    }

    // What an end-point sends is well formed, and fits.
    pub(crate) fn of(message: Message) -> Packet {
        let mut bytes = [0u8; 64];
        let _ = messages::write(message, &mut bytes);
        Packet(bytes)
    }

    pub(crate) fn message(&self) -> Message {
        message_of(self.as_slice())
    }

    #[tactic(auto, using(crate::proofs::Lengths::length_within))]
    fn as_slice(&self) -> &[u8] {
        let length = messages::length_of(self.0[0]);
        &self.0[..usize::from(length)]
    }
}

impl fmt::Display for Packet {
    fn fmt<W: fmt::Write>(&self, f: &mut fmt::Formatter<W>) -> fmt::Result {
        for byte in self.as_slice() {
            write!(f, "{byte:02x}")?;
        }
        Ok(())
    }
}
