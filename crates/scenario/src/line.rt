// A line: its letter, which is its first byte, and its numbers.
ghost use Rattle.std.specs.Prelude.{◌≡◌, [], MatchOption};
ghost use Rattle.terms.specs.Entries.{entries};
ghost use Rattle.scenario.specs.Format.{Spelt, Misspelt};

use crate::digits::number;
use terms::table::Table;

#[derive(Drop)]
pub(crate) struct Line {
    pub(crate) letter: char,
    pub(crate) numbers: Table<u16, 39>,
}

impl Line {
    // A line with no numbers yet, to parse into.
    pub(crate) fn new() -> Line
        ensures { entries result.numbers ≡ [] }
    {
        Line {
            letter: ' ',
            numbers: Table::new(0),
        }
    }

    // Reads the line that the bytes spell: a letter, then each number behind one space. At most 80 bytes spell one, so
    // that the table has room for all numbers. A new line is filled in its place and not returned, since to move one takes
    // as long as to read a number.
    pub(crate) fn parse(&mut self, bytes: &[u8]) -> Option<()>
        requires { entries self.old.numbers ≡ [] }
        ensures { MatchOption result (Misspelt bytes.now) (λ _. Spelt bytes.now self.new.letter (entries self.new.numbers)) }
    {
        if bytes.len() > 80 {
            return None;
        }
        let (letter, text) = bytes.split_first()?;
        let mut parts = text.split(|b| *b == b' ');
        if !parts.next()?.is_empty() {
            return None;
        }
        self.letter = char::from(*letter);
        for digits in parts {
            self.numbers.push(number(digits)?).ok()?;
        }
        Some(())
    }
}
