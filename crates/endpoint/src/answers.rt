// What a step answers: refused, or accepted with what it gives.
ghost use Rattle.std.specs.Prelude.{◌≡◌, MatchResult};
ghost use Rattle.messages.specs.Messages.{blank};
ghost use Rattle.views.specs.Views.{no_view};
ghost use Rattle.endpoint.specs.Numbers.{refused_with, accepted as accepted_of, declares as declares_of, sends as sends_of, gives as gives_of, installs as installs_of};
ghost use Rattle.endpoint.specs.Refusals.{number_of};

use crate::refusal::Refusal;
use crate::{Answer, EndPoint};
use messages::Message;
use views::View;

// What an accepted step gives besides the end-point.
#[derive(Clone, Copy)]
pub(crate) struct Given {
    pub message: Message,
    pub view: View,
    pub word: u64,
    pub set: u8,
}

impl Given {
    // All of it is blank.
    pub(crate) fn nothing() -> Given
        ensures { result ≡ record { message = blank 0; view = no_view; word = 0; set = 0 } }
    {
        Given {
            message: Message::blank(0),
            view: View::none(),
            word: 0,
            set: 0,
        }
    }
}

impl EndPoint {
    // The end-point with what a step came to.
    pub(crate) fn answer(&self, outcome: Result<Given, Refusal>) -> Answer
        ensures { MatchResult outcome (λ g. result ≡ record { ep = self.now; message = g.message; view = g.view; word = g.word; number = 0; set = g.set }) (λ r. result ≡ refused_with (number_of r) self.now) }
    {
        let (number, given) = match outcome {
            Ok(given) => (0, given),
            Err(refusal) => (u8::from(refusal), Given::nothing()),
        };
        Answer {
            ep: *self,
            message: given.message,
            view: given.view,
            word: given.word,
            number,
            set: given.set,
        }
    }

    // A public step answers by value, so it leaves with this by `return`: for `?` each would need a second function, as receive has.
    pub(crate) fn refused(&self, refusal: Refusal) -> Answer
        ensures { result ≡ refused_with (number_of refusal) self.now }
    {
        self.answer(Err(refusal))
    }

    // Accepted, with nothing.
    pub(crate) fn accepted(&self) -> Answer
        ensures { result ≡ accepted_of self.now }
    {
        self.answer(Ok(Given::nothing()))
    }

    // This and the three below name what a step gives, a literal each over `answer`: one function with four Options would be no plainer.
    // Accepted, with a message to a set.
    pub(crate) fn sends(&self, set: u8, message: Message) -> Answer
        ensures { result ≡ sends_of self.now set message }
    {
        self.answer(Ok(Given {
            message,
            set,
            ..Given::nothing()
        }))
    }

    // Accepted, with a set.
    pub(crate) fn declares(&self, set: u8) -> Answer
        ensures { result ≡ declares_of self.now set }
    {
        self.answer(Ok(Given {
            set,
            ..Given::nothing()
        }))
    }

    // Accepted, with a word.
    pub(crate) fn gives(&self, word: u64) -> Answer
        ensures { result ≡ gives_of self.now word }
    {
        self.answer(Ok(Given {
            word,
            ..Given::nothing()
        }))
    }

    // Accepted, with a view and T.
    pub(crate) fn installs(&self, view: View, set: u8) -> Answer
        ensures { result ≡ installs_of self.now view set }
    {
        self.answer(Ok(Given {
            view,
            set,
            ..Given::nothing()
        }))
    }
}
