// Reading a scenario file: the file as a whole first, then every line in its order.
ghost use Rattle.std.specs.Prelude.{◌≡◌, ◌+◌, ◌<◌, [], Some, Ok, Err, MatchResult};
ghost use Rattle.scenario.specs.Reading.{LineIs, page_of, blank_page};
ghost use Rattle.scenario.specs.Files.{Whole, WholeFault, Unless, Told, file_fault, read_error_text};
ghost use Rattle.scenario.specs.Law.{Law};
ghost use Rattle.scenario.specs.declared.reader.ReadError.TheVariants as error;

use crate::draft::Draft;
use crate::fault::{Cause, Fault, FileFault};
use crate::script::Command;
use crate::setting::Setting;
use std::alloc::{AllocFailed, Global};
use std::error::Error;
use std::fmt;
use tables::tables::Tables;

// A scenario that was read: a cell, and what is asked of it.
#[derive(Drop)]
pub struct Scenario {
    pub setting: Setting,
    pub tables: Tables,
    pub script: Vec<Command>,
}

// Why there is no scenario: the file's one fault, or want of memory, which says nothing of the file.
#[derive(Clone, Copy, Debug, PartialEq, Eq)]
pub enum ReadError {
    Faulty(Fault),
    Memory,
}

impl fmt::Display for ReadError {
    ghost output = { λ e. Some (read_error_text e) };

    fn fmt<W: fmt::Write>(&self, f: &mut fmt::Formatter<W>) -> fmt::Result {
        match self {
            ReadError::Faulty(fault) => write!(f, "{fault}"),
            ReadError::Memory => f.write_str("out of memory"),
        }
    }
}

impl Error for ReadError {}

impl From<Fault> for ReadError {
    ghost from_gives = { λ f r. r ≡ error.Faulty f };

    fn from(fault: Fault) -> ReadError {
        ReadError::Faulty(fault)
    }
}

impl From<FileFault> for ReadError {
    ghost from_gives = { λ f r. r ≡ error.Faulty (file_fault f) };

    fn from(fault: FileFault) -> ReadError {
        ReadError::Faulty(Fault {
            line: 0,
            cause: Cause::File(fault),
        })
    }
}

impl<T: Drop> From<AllocFailed<T>> for ReadError {
    ghost from_gives = { λ _ r. r ≡ error.Memory };

    fn from(_e: AllocFailed<T>) -> ReadError {
        ReadError::Memory
    }
}

// What was read so far, and the number of lines.
#[derive(Drop)]
struct Reader {
    draft: Draft,
    script: Vec<Command>,
    lines: u16,
}

impl Reader {
    fn new(heap: Global) -> Reader
        ensures page { page_of result.draft result.script ≡ blank_page }
        ensures none { result.lines ≡ 0 }
    {
        Reader {
            draft: Draft::new(),
            script: Vec::new(heap),
            lines: 0,
        }
    }

    // Takes the next line, or answers its fault with its number.
    fn take(&mut self, bytes: &[u8]) -> Result<(), ReadError>
        requires { self.old.lines < 65535 }
        ensures count { self.new.lines ≡ self.old.lines + 1 }
        ensures line { MatchResult result (λ _. LineIs (page_of self.old.draft self.old.script) bytes.now (Ok (page_of self.new.draft self.new.script))) (λ e. Unless e (λ f. (f.line ≡ self.new.lines) × LineIs (page_of self.old.draft self.old.script) bytes.now (Err f.cause))) }
    {
        self.lines += 1;
        let line = self.lines;
        if let Some(command) = self
            .draft
            .line(bytes)
            .map_err(|cause| Fault { line, cause })?
        {
            self.script.push(command)?;
        }
        Ok(())
    }
}

// The file as a whole: at most 32,768 bytes, and if there are any the last is a line feed.
#[tactic(auto, using(crate::proofs::Feeds::last_is))]
fn check_whole(bytes: &[u8]) -> Result<(), FileFault>
    ensures { MatchResult result (λ _. Whole bytes.now) (λ f. WholeFault bytes.now f) }
{
    if bytes.len() > 32768 {
        return Err(FileFault::TooLong);
    }
    match bytes {
        [] | [.., b'\n'] => Ok(()),
        _ => Err(FileFault::Unterminated),
    }
}

// Reads a scenario file, or answers its one fault: the first that is found in the order of the lines.
#[tactic(auto, using(crate::proofs::Lawful::lawful))]
pub fn read(heap: Global, bytes: &[u8]) -> Result<Scenario, ReadError>
    ensures answer { Told bytes.now result }
    ensures law { Law bytes.now }
{
    check_whole(bytes)?;
    read_lines(heap, bytes)
}

// Reads the lines of a file that is sound as a whole. What stands behind its last line feed is no line.
fn read_lines(heap: Global, bytes: &[u8]) -> Result<Scenario, ReadError>
    requires { Whole bytes.now }
    ensures { Told bytes.now result }
{
    let mut reader = Reader::new(heap);
    if let Some(text) = bytes.strip_suffix(b"\n") {
        for line in text.split(|b| *b == b'\n') {
            reader.take(line)?;
        }
    }
    Ok(Scenario {
        setting: reader.draft.setting,
        tables: reader.draft.tables,
        script: reader.script,
    })
}
