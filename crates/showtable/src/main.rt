// Reads the words of a table from standard input, and prints whether they make a logic and how it works.
#![tactic(auto)]

ghost use Rattle.showtable.specs.Loads.{Loads};

use anyhow::anyhow;
use arrayvec::ArrayVec;
use scale::{Logic, Scale, numbers};
use std::alloc::Global;
use std::io::Read;
use std::{fmt, io};
use table::Table;
use table::bytes::words_of;

mod fault;

use crate::fault::Fault;

// A table has at most 16 words. One word more is read, so that a longer input is seen to be too long.
const MOST_BYTES: usize = 68;

// Loads a table from the bytes of its words.
fn load(heap: Global, table: &mut Table, bytes: &[u8]) -> Result<(), Fault>
    ensures { Loads bytes.now result }
{
    if bytes.len() % 4 != 0 {
        return Err(Fault::CutShort);
    }
    let words = words_of(heap, bytes)?;
    table.load(&words)?;
    Ok(())
}

// A number, or `none`.
#[derive(Clone, Copy)]
struct OrNone(Option<u32>);

impl fmt::Display for OrNone {
    ghost use Rattle.std.specs.Prelude.{Some};
    ghost use Rattle.showtable.specs.Shown.{shown_number};

    ghost output = { λ n. Some (shown_number n.0) };

    fn fmt<W: fmt::Write>(&self, f: &mut fmt::Formatter<W>) -> fmt::Result {
        match self.0 {
            Some(n) => write!(f, "{n}"),
            None => write!(f, "none"),
        }
    }
}

// What a logic answers, in plain lines; values and cuts go by their numbers.
fn report<L: Logic>(rt: &HostRuntime, logic: &L) -> io::Result<()> {
    let size = logic.size();
    println!(rt; "values {size}")?;
    for i in 0..size {
        value(rt, logic, i)?;
    }
    square(rt, "meet", size, |i, j| numbers::meet(logic, i, j))?;
    square(rt, "join", size, |i, j| numbers::join(logic, i, j))?;
    let count = logic.cut_count();
    println!(rt; "cuts {count}")?;
    for j in 0..count {
        cut(rt, logic, j)?;
    }
    Ok(())
}

// A value: its number, its opposite, and the values at or below it.
fn value<L: Logic>(rt: &HostRuntime, logic: &L, i: u32) -> io::Result<()> {
    let opposite = OrNone(numbers::opposite(logic, i));
    print!(rt; "value {i} opposite {opposite} at or above")?;
    for j in 0..logic.size() {
        if numbers::leq(logic, j, i) == Some(true) {
            print!(rt; " {j}")?;
        }
    }
    println!(rt; "")
}

// An operation's name, and one row of answers for each value.
fn square<F: Fn(u32, u32) -> Option<u32>>(
    rt: &HostRuntime,
    name: &str,
    size: u32,
    operation: F,
) -> io::Result<()>
    requires { F.IsAlwaysCallable operation }
{
    println!(rt; "{name}")?;
    for i in 0..size {
        row(rt, size, |j| operation(i, j))?;
    }
    Ok(())
}

fn row<F: Fn(u32) -> Option<u32>>(rt: &HostRuntime, size: u32, answer: F) -> io::Result<()>
    requires { F.IsAlwaysCallable answer }
{
    for j in 0..size {
        let answer = OrNone(answer(j));
        print!(rt; " {answer}")?;
    }
    println!(rt; "")
}

// A cut: its number, its value, its ceiling and its partner.
fn cut<L: Logic>(rt: &HostRuntime, logic: &L, j: u32) -> io::Result<()> {
    let value = OrNone(numbers::cut(logic, j));
    let ceiling = OrNone(numbers::ceiling(logic, j));
    let partner = OrNone(logic.partner(j));
    println!(rt; "cut {j} value {value} ceiling {ceiling} partner {partner}")
}

fn run(rt: &HostRuntime) -> anyhow::Result<()> {
    // in fixed memory, so that what is read takes no heap
    let mut bytes = ArrayVec::<u8, MOST_BYTES>::new();
    io::copy(&mut rt.stdin().take(MOST_BYTES as u64), &mut bytes)?;
    let mut table = Table::new();
    match load(rt.alloc(), &mut table, bytes.as_slice()) {
        Ok(()) => Ok(report(rt, &table)?),
        Err(Fault::Memory) => Err(anyhow!("out of memory")),
        Err(fault) => {
            println!(rt; "refusal {fault}")?;
            Err(anyhow!("the input is no logic"))
        }
    }
}

fn main(rt: HostRuntime) -> anyhow::Result<()> {
    run(&rt)
}

#[cfg(test)]
mod tests {
    use super::*;

    // The number of the refusal of some bytes, or 0 for a table.
    fn refusal_of(heap: Global, bytes: &[u8]) -> u8 {
        let mut table = Table::new();
        match load(heap, &mut table, bytes) {
            Ok(_) => 0,
            Err(Fault::Memory) => 255,
            Err(Fault::CutShort) => 17,
            Err(Fault::Refused(why)) => why.number(),
        }
    }

    #[test]
    fn inputs(rt: HostRuntime) {
        assert_eq!(rt; refusal_of(rt.alloc(), &[]), 11);
        assert_eq!(rt; refusal_of(rt.alloc(), &[1, 0, 1]), 17);
        assert_eq!(rt; refusal_of(rt.alloc(), &[1, 0, 1, 0x60, 3, 0, 0]), 17);
        assert_eq!(rt; refusal_of(rt.alloc(), &[1, 0, 1, 0x60, 3, 0, 0, 0x60]), 0);
        assert_eq!(rt; refusal_of(rt.alloc(), &[0u8; 68]), 11);
    }
}
