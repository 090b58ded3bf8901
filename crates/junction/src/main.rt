// A signalled junction with a pedestrian stage: its plan is entered over six values, settled, read, changed and read again.
#![tactic(auto)]

mod answers;
mod desk;
mod entry;
mod moves;
mod plan;
mod play;
#[cfg(test)]
mod tests;

use desk::Desk;
use table::Table;

fn run(rt: &HostRuntime) -> anyhow::Result<()> {
    let mut logic = Table::new();
    if let Err(why) = logic.load(&plan::SIX) {
        println!(rt; "table: refusal {}", why.number())?;
        return Ok(());
    }
    println!(rt; "table of 6 values: loaded")?;
    let mut desk = Desk {
        logic: &logic,
        stretch: &mut [0; plan::VALUES],
        words: &mut [0; 64],
        names: plan::NAMES,
    };
    play::play(rt, &mut desk)?;
    Ok(())
}

fn main(rt: HostRuntime) -> anyhow::Result<()> {
    run(&rt)
}
