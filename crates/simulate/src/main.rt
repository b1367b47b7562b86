// simulate: reads a script from standard input, runs it, and prints its transcript.
#![tactic(auto)]

use anyhow::anyhow;
use simulation::simulate;
use std::io::Read;

// One byte more than the longest script: a longer one is refused without being read to its end.
const ENOUGH: u64 = 16385;

fn main(rt: HostRuntime) -> anyhow::Result<()> {
    let mut script = Vec::new(rt.alloc());
    rt.stdin().take(ENOUGH).read_to_end(&mut script)?;
    let text = simulate(rt.alloc(), script.as_slice()).map_err(|_| anyhow!("out of memory"))?;
    rt.print(text)?;
    Ok(())
}
