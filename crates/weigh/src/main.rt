// Reads a firing as text on standard input, weighs its tables and multipliers, and prints what it found.
#![tactic(auto)]

mod answer;
mod firing;
mod named;
mod readings;
mod report;
mod session;
mod tally;

use anyhow::ensure;
use report::Reply;
use session::Session;
use std::io::Read;
use tally::Tally;
use words::lines::Lines;

fn main(rt: HostRuntime) -> anyhow::Result<()> {
    let mut text = Vec::new(rt.alloc());
    rt.stdin().read_to_end(&mut text)?;
    let tally = weigh(&rt, text.as_slice())?;
    println!(rt; "{tally}")?;
    ensure!(tally.unknown == 0, "some lines were not understood");
    Ok(())
}

// Answers each line of the text, and counts what was done.
fn weigh(rt: &HostRuntime, text: &[u8]) -> anyhow::Result<Tally> {
    let mut session = Session::new();
    let mut tally = Tally::new();
    let mut place = [0; 240];
    for (before, line) in Lines::new(text).enumerate() {
        let Some(answer) = session.answer(line, &mut place) else {
            continue;
        };
        tally.count(&answer);
        let number = before.saturating_add(1);
        let reply = Reply { number, answer };
        println!(rt; "{reply}")?;
        if answer.is_ok_and(|answer| answer.weighed()) {
            if let Some(gap) = session.gap() {
                println!(rt; "{gap}")?;
            }
        }
    }
    Ok(tally)
}
