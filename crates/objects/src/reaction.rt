// What an object answers to an event.
ghost use Rattle.std.specs.Prelude.{◌≡◌, ◌<◌, [], ◌∷◌, ◌++◌, length, Some};
ghost use Rattle.std.specs.Option.{option_to_list};
ghost use Rattle.terms.specs.Entries.{entries};
ghost use Rattle.objects.specs.Letters.{letter_of};
ghost use Rattle.objects.specs.Sending.{sends_of};
ghost use Rattle.objects.specs.declared.reaction.Verdict.TheVariants as verdict;

use std::fmt;
use terms::send::Send;
use terms::table::Table;

#[derive(Clone, Copy, Debug, PartialEq, Eq)]
pub enum Verdict {
    Handled,
    Deferred,
    Ignored,
}

// As a listing shows it: H, D or I.
impl fmt::Display for Verdict {
    ghost output = { λ v. Some (letter_of v ∷ []) };

    fn fmt<W: fmt::Write>(&self, f: &mut fmt::Formatter<W>) -> fmt::Result {
        f.write_str(match self {
            Verdict::Handled => "H",
            Verdict::Deferred => "D",
            Verdict::Ignored => "I",
        })
    }
}

// A verdict, and what is to be sent, in order.
#[derive(Clone, Copy)]
pub struct Reaction {
    pub verdict: Verdict,
    pub sends: Table<Send, 9>,
}

impl Reaction {
    // A verdict with nothing to send.
    pub fn silent(verdict: Verdict) -> Reaction
        ensures verdict { result.verdict ≡ verdict }
        ensures sends { entries result.sends ≡ [] }
    {
        Reaction {
            verdict,
            sends: Table::new(Send::Recall),
        }
    }

    // An event that is handled, with the send that has a number, if there is one.
    pub fn handled(sends: &Table<Send, 32>, number: Option<u8>) -> Reaction
        ensures verdict { result.verdict ≡ verdict.Handled }
        ensures sends { entries result.sends ≡ sends_of (entries sends.now) number }
    {
        let mut reaction = Reaction::silent(Verdict::Handled);
        reaction.add(number.and_then(|number| sends.get(number as usize)));
        reaction
    }

    // A send behind the others, if there is one.
    pub(crate) fn add(&mut self, send: Option<Send>)
        requires { length (entries self.old.sends) < 9 }
        ensures verdict { self.new.verdict ≡ self.old.verdict }
        ensures sends { entries self.new.sends ≡ entries self.old.sends ++ option_to_list send }
    {
        if let Some(send) = send {
            let _ = self.sends.push(send);
        }
    }
}
