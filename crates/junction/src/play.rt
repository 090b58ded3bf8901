// Plays the plan: each call is printed with its answer.
use crate::answers::Answer;
use crate::desk::Desk;
use crate::entry::Entry;
use crate::moves::{entered_twice, twice_read};
use crate::plan;
use scale::Logic;
use sheet::{Draft, Settled};
use std::io;

fn print_enter<L: Logic>(
    rt: &HostRuntime,
    draft: &mut Draft,
    desk: &mut Desk<'_, L>,
    entry: Entry,
) -> io::Result<()> {
    let answer = Answer::from(desk.enter(draft, entry));
    println!(rt; "{entry}: {answer}")
}

// Entries, formulas and lines stand in lists of three kinds; their functions have a loop alike, and no more.
fn enter_entries<L: Logic>(
    rt: &HostRuntime,
    draft: &mut Draft,
    desk: &mut Desk<'_, L>,
    entries: &[Entry],
) -> io::Result<()> {
    for entry in entries {
        print_enter(rt, draft, desk, *entry)?;
    }
    Ok(())
}

fn enter_formulas<L: Logic>(
    rt: &HostRuntime,
    draft: &mut Draft,
    desk: &mut Desk<'_, L>,
) -> io::Result<()> {
    for (text, _) in plan::FORMULAS {
        print_enter(rt, draft, desk, Entry::Text(text))?;
    }
    Ok(())
}

// Reads every formula at the stage all red.
fn read_formulas<L: Logic>(
    rt: &HostRuntime,
    settled: &Settled,
    desk: &Desk<'_, L>,
) -> io::Result<()> {
    for (text, line) in plan::FORMULAS {
        let answer = Answer::reading(desk.logic, desk.read(settled, line, 0));
        println!(rt; "read {text} at 0: {answer}")?;
    }
    Ok(())
}

// Reads the lines that were entered as words, and one that there is not, at the stage all red.
fn read_lines<L: Logic>(rt: &HostRuntime, settled: &Settled, desk: &Desk<'_, L>) -> io::Result<()> {
    for line in 38..43u8 {
        let answer = Answer::reading(desk.logic, desk.read(settled, line, 0));
        println!(rt; "read line {line} at 0: {answer}")?;
    }
    Ok(())
}

// Reads the first formula at two stages, reopens the sheet, changes an arrow (by mistake to F, then to T), settles the sheet
// and reads it again.
fn change<L: Logic>(rt: &HostRuntime, settled: Settled, desk: &mut Desk<'_, L>) -> io::Result<()> {
    let (draft, first, second) = twice_read(settled, desk, 1);
    let first = Answer::reading(desk.logic, first);
    let second = Answer::reading(desk.logic, second);
    println!(rt; "read line 1 at 0: {first}")?;
    println!(rt; "read line 1 at 1: {second}")?;
    println!(rt; "reopen")?;
    print!(rt; "arrow 0 3 value 0, arrow 0 3 value 5, settle: ")?;
    match entered_twice(draft, desk, 0, 5) {
        Ok((again, rounds)) => {
            println!(rt; "{}", Answer::Rounds(rounds))?;
            read_formulas(rt, &again, desk)?;
            read_lines(rt, &again, desk)
        }
        Err(why) => println!(rt; "{}", Answer::Refused(why)),
    }
}

// Opens the sheet, enters the plan, settles it, reads it and changes it.
pub fn play<L: Logic>(rt: &HostRuntime, desk: &mut Desk<'_, L>) -> io::Result<()> {
    print!(rt; "open 5 stages 3 marks: ")?;
    let mut draft = match desk.open(plan::STAGES, plan::MARKS) {
        Ok(draft) => draft,
        Err(why) => return println!(rt; "{}", Answer::Refused(why)),
    };
    println!(rt; "{}", Answer::Opened)?;
    enter_entries(rt, &mut draft, desk, &plan::MODEL)?;
    enter_formulas(rt, &mut draft, desk)?;
    enter_entries(rt, &mut draft, desk, &plan::WORDS)?;
    match desk.settle(draft) {
        Ok((settled, rounds)) => {
            println!(rt; "settle: {}", Answer::Rounds(rounds))?;
            read_formulas(rt, &settled, desk)?;
            read_lines(rt, &settled, desk)?;
            change(rt, settled, desk)
        }
        Err((_, why)) => println!(rt; "{}", Answer::Refused(why)),
    }
}
