// Reads a plan file from standard input, and prints what its words ask for: the rounds of each settling, each value asked, and
// the refusal at which it stopped, if it did.
#![tactic(auto)]

use std::io::{Read, Write};
use std::process::ExitCode;

#[cfg(test)]
mod tests;

// A plan has at most 8,192 words. One byte more is read, so that a longer file is seen to be too long.
const MOST_BYTES: u64 = 4 * 8192 + 1;

// Runs the plan on standard input, and answers whether it came to its end.
fn run(rt: &HostRuntime) -> anyhow::Result<bool> {
    let mut bytes = Vec::new(rt.alloc());
    rt.stdin().take(MOST_BYTES).read_to_end(&mut bytes)?;
    let outcome = plan::run(rt.alloc(), bytes.as_slice())?;
    let text = outcome.text(rt.alloc())?;
    rt.stdout().write_all(text.as_bytes())?;
    Ok(outcome.stop.is_none())
}

fn main(rt: HostRuntime) -> anyhow::Result<ExitCode> {
    if run(&rt)? {
        Ok(ExitCode::SUCCESS)
    } else {
        // the last line on standard output says where and why
        Ok(ExitCode::FAILURE)
    }
}
