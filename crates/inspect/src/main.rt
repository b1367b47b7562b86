// Prints what the image in a file holds: `inspect FILE`.
#![tactic(auto)]

use anyhow::anyhow;
use inspection::fault::InspectFault;
use inspection::{ROOM, describe};
use std::{env, fs};

fn main(rt: HostRuntime) -> anyhow::Result<()> {
    inspect(&rt)
}

fn inspect(rt: &HostRuntime) -> anyhow::Result<()> {
    let Some(path) = env::args(rt)?.nth(1) else {
        return Err(anyhow!("usage: inspect FILE"));
    };
    let mut bytes = fs::read(rt, path.as_str())?;
    let n = bytes.len();
    bytes.resize(n.max(ROOM), 0)?;
    let mut out = String::new(rt.alloc());
    match describe(&mut out, &mut bytes, n) {
        Ok(()) => {
            rt.print(out.as_str())?;
            Ok(())
        }
        Err(InspectFault::Refused(fault)) => {
            let number = fault.number();
            println!(rt; "no {number}")?;
            Err(anyhow!("the file is no image"))
        }
        Err(InspectFault::NoMemory) => Err(anyhow!("no memory for the text")),
    }
}
