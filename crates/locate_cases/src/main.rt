// Answers a question for each line of standard input, as `locate` answers its arguments: what it writes is compared
// with what reference/locate.py writes.
#![tactic(auto)]

use anyhow::anyhow;
use locator::answer::locate;
use locator::words::LocateFault;

fn main(rt: HostRuntime) -> anyhow::Result<()> {
    for line in rt.lines(rt.alloc()) {
        let question = line?;
        answer(&rt, question.as_str())?;
    }
    Ok(())
}

// Writes the answer to one question, or the refusal.
fn answer(rt: &HostRuntime, question: &str) -> anyhow::Result<()> {
    let heap = rt.alloc();
    let words: Vec<String> = question
        .split(' ')
        .map(|word| String::from_str(heap, word))
        .try_collect(heap)?;
    match locate(heap, words.as_slice()) {
        Ok(text) => rt.print(text)?,
        Err(LocateFault::Word(f)) => rt.println(f)?,
        Err(LocateFault::Memory) => return Err(anyhow!("out of memory")),
    }
    Ok(())
}
