// The listing of a scenario file, as text.
ghost use Rattle.std.specs.Prelude.{◌≡◌, ◌<◌, Some, IfOk, string_bytes, MatchResult};
ghost use Rattle.scenario.specs.declared.listing.ListError.TheVariants as error;
ghost use Rattle.scenario.specs.Law.{Law};
ghost use Rattle.scenario.specs.Listings.{fault_line, frames_line, frames_text, list_error_text, Listed, Unlisted};

use crate::fault::Fault;
use crate::reader::{ReadError, read};
use kernel::layout::Pool;
use std::alloc::{AllocError, Global};
use std::error::Error;
use std::fmt;

// Why there is no listing: the file has a script, or memory is wanting.
#[derive(Clone, Copy, Debug, PartialEq, Eq)]
pub enum ListError {
    Script,
    Memory,
}

impl fmt::Display for ListError {
    ghost output = { λ e. Some (list_error_text e) };

    fn fmt<W: fmt::Write>(&self, f: &mut fmt::Formatter<W>) -> fmt::Result {
        f.write_str(match self {
            ListError::Script => "scripts are not run yet",
            ListError::Memory => "out of memory",
        })
    }
}

impl Error for ListError {}

impl From<AllocError> for ListError {
    ghost from_gives = { λ _ r. r ≡ error.Memory };

    fn from(_e: AllocError) -> ListError {
        ListError::Memory
    }
}

// The frames of each pool, as a listing shows them: `z`, then their counts.
#[derive(Clone, Copy, Debug, PartialEq, Eq)]
struct Frames<'a> {
    pools: &'a [Pool],
}

impl fmt::Display for Frames<'_> {
    ghost output = { λ frames. Some (frames_text frames.pools.now) };

    fn fmt<W: fmt::Write>(&self, f: &mut fmt::Formatter<W>) -> fmt::Result {
        write!(f, "z")?;
        for pool in self.pools {
            write!(f, " {}", pool.count)?;
        }
        Ok(())
    }
}

// What is printed of a faulty file.
pub fn fault_line(heap: Global, fault: Fault) -> Result<String, AllocError>
    ensures { IfOk result (λ s. string_bytes s ≡ fault_line fault) }
{
    format!(in heap; "{fault}\n")
}

// What is printed of the frames of each pool.
pub fn frames_line(heap: Global, pools: &[Pool]) -> Result<String, AllocError>
    ensures { IfOk result (λ s. string_bytes s ≡ frames_line pools.now) }
{
    format!(in heap; "{}\n", Frames { pools })
}

// The listing of a scenario file: its fault, or with no script its frames. Scripts are not run yet.
pub fn listing(heap: Global, bytes: &[u8]) -> Result<String, ListError>
    ensures text { MatchResult result (λ s. Listed bytes.now (string_bytes s)) (λ e. Unlisted bytes.now e) }
    ensures law { Law bytes.now }
{
    match read(heap, bytes) {
        Ok(scenario) if scenario.script.is_empty() => Ok(frames_line(
            heap,
            scenario.setting.layout.pools(),
        )?),
        Ok(_) => Err(ListError::Script),
        Err(ReadError::Faulty(fault)) => Ok(fault_line(heap, fault)?),
        Err(ReadError::Memory) => Err(ListError::Memory),
    }
}
