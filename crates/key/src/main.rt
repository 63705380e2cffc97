// Reads a card file from standard input and prints its whole key.
#![tactic(auto)]

use printed_key::{LONGEST, whole_key};
use std::io::Read;

fn run(rt: &HostRuntime) -> anyhow::Result<()> {
    let heap = rt.alloc();
    let mut input = Vec::new(heap);
    // One byte more than an input may have shows that it is too long.
    let _ = rt.stdin().take(LONGEST as u64 + 1).read_to_end(&mut input)?;
    let text = whole_key(heap, input.as_slice())?;
    print!(rt; "{text}")?;
    Ok(())
}

fn main(rt: HostRuntime) -> anyhow::Result<()> {
    run(&rt)
}
