// Reads a scenario file on standard input and writes its listing on standard output.
#![tactic(auto)]

use scenario::listing::listing;
use std::io::Read;

// One byte more than a scenario file may have, so that a longer one is seen to be too long.
const MOST: u64 = 32_769;

fn run(rt: &HostRuntime) -> anyhow::Result<()> {
    let heap = rt.alloc();
    let mut bytes = Vec::new(heap);
    rt.stdin().take(MOST).read_to_end(&mut bytes)?;
    let text = listing(heap, bytes.as_slice())?;
    rt.print(text)?;
    Ok(())
}

fn main(rt: HostRuntime) -> anyhow::Result<()> {
    run(&rt)
}
