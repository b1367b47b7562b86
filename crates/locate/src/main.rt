// locate POLICY MEMBERS COPIES KEY...: where keys live, and where they will live once the last member has left.
#![tactic(auto)]

use locator::answer::locate;
use locator::words::LocateFault;
use std::env;
use std::process::ExitCode;

fn main(rt: HostRuntime) -> anyhow::Result<ExitCode> {
    let heap = rt.alloc();
    let words: Vec<String> = env::args(&rt)?.skip(1).collect(heap)?;
    match locate(heap, words.as_slice()) {
        Ok(text) => {
            rt.print(text)?;
            Ok(ExitCode::SUCCESS)
        }
        Err(fault) => refuse(&rt, words.as_slice(), fault),
    }
}

// Says on standard error which word is wrong and why; the program then ends with status 1.
fn refuse(rt: &HostRuntime, words: &[String], fault: LocateFault) -> anyhow::Result<ExitCode> {
    match fault {
        LocateFault::Word(f) => match words.get(f.place) {
            Some(word) => eprintln!(rt; "locate: {f}: '{word}'")?,
            None => eprintln!(rt; "locate: {f} (POLICY MEMBERS COPIES KEY...)")?,
        },
        LocateFault::Memory => eprintln!(rt; "locate: out of memory")?,
    }
    Ok(ExitCode::FAILURE)
}
