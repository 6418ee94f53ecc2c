// An event: a signal and up to eight words of 32 bits.
ghost use Rattle.std.specs.Prelude.{◌≡◌, [], Some};
ghost use Rattle.terms.specs.Events.{content};
ghost use Rattle.terms.specs.Calls.{Follows};
ghost use Rattle.terms.specs.Entries.{added};

use crate::table::{Table, TableFault};

#[derive(Clone, Copy)]
pub struct Event {
    signal: u8,
    words: Table<u32, 8>,
}

impl Event {
    // An event with no words yet.
    pub fn new(signal: u8) -> Event
        ensures { content result ≡ record { signal = signal; words = [] } }
    {
        Event {
            signal,
            words: Table::new(0),
        }
    }

    // One word more, behind the others; a ninth is refused.
    pub fn push(&mut self, word: u32) -> Result<(), TableFault>
        ensures signal { (content self.new).signal ≡ (content self.old).signal }
        ensures words { Follows (added 8 (content self.old).words (Some word)) result (content self.old).words (content self.new).words }
    {
        self.words.push(word)
    }

    pub fn signal(&self) -> u8
        ensures { result ≡ (content self.now).signal }
    {
        self.signal
    }

    pub fn words(&self) -> &[u32]
        ensures { result.now ≡ (content self.now).words }
    {
        self.words.as_slice()
    }
}
