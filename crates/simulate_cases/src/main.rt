// Runs many scripts, which stand in standard input one behind the other with the byte 30 (record separator) between
// them, and prints for each the line `script N` and its transcript: what it writes is compared with what
// reference/simulate.py writes.
#![tactic(auto)]

use anyhow::anyhow;
use simulation::simulate;
use std::io::Read;

const SEPARATOR: u8 = 30;

// Runs the script with a number.
fn run(rt: &HostRuntime, number: usize, script: &[u8]) -> anyhow::Result<()> {
    println!(rt; "script {number}")?;
    let text = simulate(rt.alloc(), script).map_err(|_| anyhow!("out of memory"))?;
    rt.print(text)?;
    Ok(())
}

fn main(rt: HostRuntime) -> anyhow::Result<()> {
    let mut input = Vec::new(rt.alloc());
    rt.stdin().read_to_end(&mut input)?;
    let scripts = input.split(|byte| *byte == SEPARATOR);
    for (place, script) in scripts.enumerate() {
        run(&rt, place + 1, script)?;
    }
    Ok(())
}
