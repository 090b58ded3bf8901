// Reads a line of names and then formulas, one to a line, from standard input. For each formula it prints the text and the
// line words of its tree with their meaning, or the refusal.
#![tactic(auto)]

use anyhow::anyhow;
use lines::Line;
use std::io::{BufRead, BufReader, Read, Write};

#[cfg(test)]
mod tests;

// The most bytes of input, an end counted for each line.
const MOST_INPUT: usize = 1 << 20;

// Prints line words, from the first of a sheet on, with what they say.
fn show_words(rt: &HostRuntime, marks: u8, words: &[u32]) -> anyhow::Result<()> {
    for (i, word) in (0u8..64).zip(words) {
        match Line::read(*word, i, marks) {
            Ok(line) => println!(rt; "  0x{word:08x}  {i}: {line}")?,
            Err(why) => println!(rt; "  0x{word:08x}  {i}: refusal {why}")?,
        }
    }
    Ok(())
}

// Prints the line words of a formula on an empty sheet, or the refusal.
fn show(rt: &HostRuntime, names: &[u8], marks: u8, text: &[u8]) -> anyhow::Result<()> {
    let mut words = [0u32; 64];
    match formula::append(names, text, marks, 0, &mut words) {
        Ok(count) => show_words(rt, marks, &words[..count as usize]),
        Err(why) => {
            println!(rt; "  refusal {why}")?;
            Ok(())
        }
    }
}

fn run(rt: &HostRuntime) -> anyhow::Result<()> {
    let input = BufReader::new(rt.alloc(), rt.stdin().take(MOST_INPUT as u64 + 1))?;
    let mut items = input.split(rt.alloc(), b'\n');
    let Some(first) = items.next() else {
        return Ok(());
    };
    let names = first?;
    let marks = u8::try_from(tokens::names::count(names.as_slice())).unwrap_or(255);
    let mut out = rt.stdout();
    let mut read = names.len().saturating_add(1);
    for item in items {
        let text = item?;
        read = read.saturating_add(text.len()).saturating_add(1);
        if read > MOST_INPUT {
            return Err(anyhow!("the input is too long"));
        }
        out.write_all(text.as_slice())?;
        println!(rt; "")?;
        show(rt, names.as_slice(), marks, text.as_slice())?;
    }
    Ok(())
}

fn main(rt: HostRuntime) -> anyhow::Result<()> {
    run(&rt)
}
