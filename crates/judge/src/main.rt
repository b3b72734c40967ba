// Judges a file on standard input under the kinds that its head names, and prints one line with the answer.
#![tactic(auto)]

use catalogue::answer::judge_line;
use std::io::{Read, Write};

// The most that is read. The longest file that can be accepted has 11,829 bytes.
const MOST: u64 = 65_536;

fn main(rt: HostRuntime) -> anyhow::Result<()> {
    let mut file = Vec::new(rt.alloc());
    rt.stdin().take(MOST).read_to_end(&mut file)?;
    let line = judge_line(file.as_slice());
    rt.stdout().write_all(line.text())?;
    Ok(())
}
