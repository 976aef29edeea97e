// A message of each kind, made from its parts.
ghost use Rattle.std.specs.Prelude.{◌≡◌};
ghost use Rattle.messages.specs.Messages.{blank as blank_of, of_view as view_of, of_word as word_of, of_sync as sync_of, of_forward as forward_of, of_start_change as start_change_of};

use crate::{Kind, Message};
use views::{Cut, View};

impl Message {
    // Nothing but a kind, by its number as the struct has it.
    pub fn blank(kind: u8) -> Message
        ensures { result ≡ blank_of kind }
    {
        Message {
            view: View::none(),
            word: 0,
            number: 0,
            cut: Cut::none(),
            kind,
            set: 0,
            sender: 0,
            index: 0,
        }
    }

    // Kind 1, a view, or 6, a membership view.
    pub fn of_view(kind: u8, view: View) -> Message
        ensures { result ≡ view_of kind view }
    {
        Message {
            view,
            ..Message::blank(kind)
        }
    }

    pub fn of_word(word: u64) -> Message
        ensures { result ≡ word_of word }
    {
        Message {
            word,
            ..Message::blank(Kind::Word.into())
        }
    }

    pub fn of_sync(number: u32, view: View, cut: Cut) -> Message
        ensures { result ≡ sync_of number view cut }
    {
        Message {
            number,
            view,
            cut,
            ..Message::blank(Kind::Sync.into())
        }
    }

    pub fn of_forward(sender: u8, index: u8, view: View, word: u64) -> Message
        ensures { result ≡ forward_of sender index view word }
    {
        Message {
            sender,
            index,
            view,
            word,
            ..Message::blank(Kind::Forward.into())
        }
    }

    pub fn of_start_change(number: u32, set: u8) -> Message
        ensures { result ≡ start_change_of number set }
    {
        Message {
            number,
            set,
            ..Message::blank(Kind::StartChange.into())
        }
    }
}
