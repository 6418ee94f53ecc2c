// Runs a table of scenario files on standard input and says which are answered otherwise than expected.
// A case is a line: the expected answer, a tab, and the file's bytes. Lines that begin with `#` are comments.
#![tactic(auto)]

mod escape;

use escape::{Trouble, cut, expand};
use scenario::listing::{fault_line, frames_line};
use scenario::reader::{ReadError, read};
use std::alloc::Global;
use std::io::Read;

// The answer to a file: its fault, or the frames of its pools.
fn answer(heap: Global, file: &[u8]) -> Result<String, Trouble> {
    match read(heap, file) {
        Ok(scenario) => Ok(frames_line(heap, scenario.setting.layout.pools())?),
        Err(ReadError::Faulty(fault)) => Ok(fault_line(heap, fault)?),
        Err(ReadError::Memory) => Err(Trouble::Memory),
    }
}

// Whether a case is answered as it expects.
fn passes(heap: Global, case: &[u8]) -> Result<bool, Trouble> {
    let (expected, text) = cut(case, b'\t').ok_or(Trouble::Malformed)?;
    let mut file = Vec::new(heap);
    expand(text, &mut file)?;
    let given = answer(heap, file.as_slice())?;
    Ok(given.as_bytes().strip_suffix(b"\n") == Some(expected))
}

fn run(rt: &HostRuntime) -> anyhow::Result<()> {
    let heap = rt.alloc();
    let mut table = Vec::new(heap);
    rt.stdin().read_to_end(&mut table)?;
    let mut lines = table.as_slice().split(|b| *b == b'\n');
    // What stands behind the last line feed is no case.
    lines.next_back();
    let mut cases: u64 = 0;
    let mut differ: u64 = 0;
    for (number, case) in (1u64..).zip(lines) {
        if case.is_empty() || case.starts_with(b"#") {
            continue;
        }
        cases = cases.saturating_add(1);
        if !passes(heap, case)? {
            differ = differ.saturating_add(1);
            println!(rt; "line {number} differs")?;
        }
    }
    println!(rt; "{cases} cases, {differ} differ")?;
    Ok(())
}

fn main(rt: HostRuntime) -> anyhow::Result<()> {
    run(&rt)
}
