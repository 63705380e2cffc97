// Reads a stream of card files and stories from standard input, replays it and prints one line: the counts, or the first
// difference.
#![tactic(auto)]

use replaying::replay;
use std::io::Read;

fn run(rt: &HostRuntime) -> anyhow::Result<()> {
    let heap = rt.alloc();
    let mut input = Vec::new(heap);
    let _ = rt.stdin().read_to_end(&mut input)?;
    let report = replay(heap, input.as_slice());
    println!(rt; "{report}")?;
    Ok(())
}

fn main(rt: HostRuntime) -> anyhow::Result<()> {
    run(&rt)
}
