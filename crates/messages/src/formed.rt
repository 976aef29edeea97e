// When a message is well formed: each part that its kind has passes its test, and each that it does not have is blank.
ghost use Rattle.std.specs.Prelude.{◌≡◌};
ghost use Rattle.messages.specs.Kinds.{code_of};
ghost use Rattle.messages.specs.Layouts.{number_fits, place_fits, view_fits, cut_set, word_fits, set_fits, fields_fit, well_formed};

use crate::{Kind, Message};
use views::View;

fn number_fits(kind: Kind, number: u32) -> bool
    ensures { result ≡ number_fits (code_of kind) number }
{
    kind.has_number() || number == 0
}

pub(crate) fn place_fits(kind: Kind, sender: u64, index: u64) -> bool
    ensures { result ≡ place_fits (code_of kind) sender index }
{
    if kind.has_place() {
        sender <= 7 && 1 <= index && index <= 128
    } else {
        sender == 0 && index == 0
    }
}

pub(crate) fn word_fits(kind: Kind, word: u64) -> bool
    ensures { result ≡ word_fits (code_of kind) word }
{
    kind.has_word() || word == 0
}

fn set_fits(kind: Kind, set: u8) -> bool
    ensures { result ≡ set_fits (code_of kind) set }
{
    kind.has_set() || set == 0
}

fn cut_set(kind: Kind, set: u8) -> u8
    ensures { result ≡ cut_set (code_of kind) set }
{
    if kind.has_cut() { set } else { 0 }
}

fn view_fits(kind: Kind, v: View) -> bool
    ensures { result ≡ view_fits (code_of kind) v }
{
    if kind.has_view() {
        v.well_formed()
    } else {
        v == View::none()
    }
}

impl Message {
    // Whether each number is one that the kind may have.
    #[tactic(auto, using(below::proofs::Tests::picks), unfolding(crate::specs::Layouts::fields_fit))]
    fn fields_fit(self, kind: Kind) -> bool
        requires { self.kind ≡ code_of kind }
        ensures { result ≡ fields_fit self.kind self.number self.sender self.index self.word self.set }
    {
        number_fits(kind, self.number)
            && place_fits(kind, u64::from(self.sender), u64::from(self.index))
            && word_fits(kind, self.word)
            && set_fits(kind, self.set)
    }

    // Whether each part of the message is one that the kind may have. The kind is named once by who calls: a struct of both would be made for three private calls.
    #[tactic(auto, using(below::proofs::Tests::picks), unfolding(crate::specs::Layouts::well_formed))]
    pub(crate) fn fits(self, kind: Kind) -> bool
        requires { self.kind ≡ code_of kind }
        ensures { result ≡ well_formed self }
    {
        self.fields_fit(kind)
            && self.cut.well_formed(cut_set(kind, self.view.set))
            && view_fits(kind, self.view)
    }

    // Whether the message is well formed: the number is a kind's, and all parts fit it.
    pub fn well_formed(self) -> bool
        ensures { result ≡ well_formed self }
    {
        let Ok(kind) = self.named_kind() else {
            return false;
        };
        self.fits(kind)
    }
}
