// States and sends as text.
use std::fmt;
use terms::send::Send;

// The state that an object is in: the marks of a net, or the number of a state.
#[derive(Clone, Copy, Debug, PartialEq, Eq)]
pub(crate) enum Standing<'a> {
    Marks(&'a [u8]),
    State(u8),
}

impl fmt::Display for Standing<'_> {
    fn fmt<W: fmt::Write>(&self, f: &mut fmt::Formatter<W>) -> fmt::Result {
        match self {
            Standing::Marks(marks) => {
                let mut lead = "";
                for mark in *marks {
                    write!(f, "{lead}{mark}")?;
                    lead = ",";
                }
                Ok(())
            }
            Standing::State(state) => write!(f, "{state}"),
        }
    }
}

// What an object sends, in order, behind a bar.
#[derive(Clone, Copy, Debug, PartialEq, Eq)]
pub(crate) struct Sent<'a>(pub(crate) &'a [Send]);

impl fmt::Display for Sent<'_> {
    fn fmt<W: fmt::Write>(&self, f: &mut fmt::Formatter<W>) -> fmt::Result {
        let mut lead = " | ";
        for send in self.0 {
            match send {
                Send::Post {
                    object,
                    signal,
                    word,
                } => write!(f, "{lead}post {object} {signal} {word}")?,
                Send::Publish { signal, word } => write!(f, "{lead}publish {signal} {word}")?,
                Send::Recall => write!(f, "{lead}recall")?,
            }
            lead = ", ";
        }
        Ok(())
    }
}
