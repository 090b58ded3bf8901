// What a sheet answers at the edges: each refusal just past its bound, what settling and reading do with damaged memory, and
// small plans with known answers.
use crate::desk::Desk;
use crate::entry::Entry;
use chains::chain::Chain;
use chains::sets::Sets;
use compounds::pair::Pair;
use scale::{Logic, Scale};
use sheet::{Refusal, Settled};
use std::test::Fail;

// A reading: a line, a stage and the number of the value that is expected.
#[derive(Clone, Copy, Debug)]
struct Ask {
    line: u8,
    stage: u8,
    number: u32,
}

// What a call is lent, with one mark's name.
fn lent<'a, L: Logic>(
    logic: &'a L,
    stretch: &'a mut [L::Value],
    words: &'a mut [u32],
) -> Desk<'a, L> {
    Desk {
        logic,
        stretch,
        words,
        names: "p",
    }
}

// Opens a sheet with one mark, enters a list and settles it.
fn settled<L: Logic>(
    desk: &mut Desk<'_, L>,
    stages: u8,
    entries: &[Entry],
) -> Result<(Settled, u8), Refusal> {
    let mut draft = desk.open(stages, 1)?;
    for entry in entries {
        desk.enter(&mut draft, *entry)?;
    }
    desk.settle(draft).map_err(|(_, why)| why)
}

// The number of the refusal to open, or 0.
fn opening<L: Logic>(mut desk: Desk<'_, L>, stages: u8, marks: u8) -> u8 {
    match desk.open(stages, marks) {
        Ok(_) => 0,
        Err(why) => why.number(),
    }
}

// The count of rounds, or 100 and the number of the first refusal.
fn rounds<L: Logic>(desk: &mut Desk<'_, L>, stages: u8, entries: &[Entry]) -> u8 {
    match settled(desk, stages, entries) {
        Ok((_, count)) => count,
        Err(why) => why.number().saturating_add(100),
    }
}

// The number of the value read, or 100 and the number of the refusal.
fn reading<L: Logic>(desk: &Desk<'_, L>, sheet: &Settled, line: u8, stage: u8) -> u32 {
    match desk.read(sheet, line, stage) {
        Ok(value) => desk.logic.number(value).unwrap_or(99),
        Err(why) => why.number() as u32 + 100,
    }
}

// How many readings are as expected, before the first that is not.
fn readings_right<L: Logic>(desk: &Desk<'_, L>, sheet: &Settled, asks: &[Ask]) -> usize {
    asks.iter()
        .take_while(|ask| reading(desk, sheet, ask.line, ask.stage) == ask.number)
        .count()
}

// How many lines an empty sheet takes, and the number of the refusal of the next.
fn lines_taken<L: Logic>(mut desk: Desk<'_, L>) -> (u8, u8) {
    let Ok(mut draft) = desk.open(1, 0) else {
        return (0, 0);
    };
    for count in 0..100u8 {
        if let Err(why) = desk.enter(&mut draft, Entry::Line(0x40000000)) {
            return (count, why.number());
        }
    }
    (100, 0)
}

#[test]
fn sizes(rt: HostRuntime) -> Result<(), Fail> {
    let c = Chain::new(3)?;
    let mut stretch = [0u8; 138];
    let mut words = [0u32; 64];
    assert_eq!(rt; opening(lent(&c, &mut stretch, &mut words), 65, 1), 1);
    assert_eq!(rt; opening(lent(&c, &mut stretch, &mut words), 0, 1), 1);
    assert_eq!(rt; opening(lent(&c, &mut stretch, &mut words), 1, 17), 1);
    assert_eq!(rt; opening(lent(&c, &mut stretch, &mut words), 2, 1), 0);
    assert_eq!(rt; opening(lent(&c, &mut [0u8; 137], &mut words), 2, 1), 2);
    assert_eq!(rt; opening(lent(&c, &mut stretch, &mut [0u32; 63]), 2, 1), 3);
    Ok(())
}

#[test]
fn many_values(rt: HostRuntime) -> Result<(), Fail> {
    let p = Pair {
        first: Chain::new(64)?,
        second: Sets::new(7)?,
    };
    let mut stretch = [p.lowest(); 138];
    assert_eq!(rt; opening(lent(&p, &mut stretch, &mut [0u32; 64]), 2, 1), 10);
    Ok(())
}

#[test]
fn opening_clears(rt: HostRuntime) -> Result<(), Fail> {
    let c = Chain::new(3)?;
    let mut stretch = [7u8; 138];
    let mut words = [0xFFFFFFFFu32; 64];
    assert_eq!(rt; opening(lent(&c, &mut stretch, &mut words), 2, 1), 0);
    assert!(rt; stretch == [0u8; 138]);
    assert!(rt; words == [0u32; 64]);
    Ok(())
}

// What comes of one entry on a sheet of two stages, in the same numbers.
fn one_entry<L: Logic>(desk: &mut Desk<'_, L>, entry: Entry) -> u8 {
    rounds(desk, 2, &[entry])
}

#[test]
fn refused_entries(rt: HostRuntime) -> Result<(), Fail> {
    let c = Chain::new(3)?;
    let (mut stretch, mut words) = ([0u8; 138], [0u32; 64]);
    let desk = &mut lent(&c, &mut stretch, &mut words);
    assert_eq!(rt; one_entry(desk, Entry::Arrow(2, 0, 0)), 104);
    assert_eq!(rt; one_entry(desk, Entry::Arrow(0, 2, 0)), 104);
    assert_eq!(rt; one_entry(desk, Entry::Mark(0, 1, 0)), 105);
    assert_eq!(rt; one_entry(desk, Entry::Arrow(0, 0, 3)), 106);
    assert_eq!(rt; one_entry(desk, Entry::Line(0x40900000)), 107);
    desk.names = "p p";
    assert_eq!(rt; one_entry(desk, Entry::Text("p")), 115);
    desk.names = "p";
    assert_eq!(rt; one_entry(desk, Entry::Text("E X p")), 116);
    Ok(())
}

#[test]
fn sixty_four_lines(rt: HostRuntime) -> Result<(), Fail> {
    let c = Chain::new(2)?;
    assert_eq!(rt;
        lines_taken(lent(&c, &mut [0u8; 138], &mut [0u32; 64])),
        (64, 8)
    );
    Ok(())
}

const PLAN: [Entry; 9] = [
    Entry::Arrow(0, 1, 1),
    Entry::Arrow(1, 1, 2),
    Entry::Mark(1, 0, 2),
    Entry::Text("EX p"),
    Entry::Text("AX p"),
    Entry::Text("EF p"),
    Entry::Text("AF p"),
    Entry::Text("EG p"),
    Entry::Text("AG p"),
];

const ASKS: [Ask; 8] = [
    Ask {
        line: 1,
        stage: 0,
        number: 1,
    },
    Ask {
        line: 3,
        stage: 0,
        number: 2,
    },
    Ask {
        line: 5,
        stage: 0,
        number: 1,
    },
    Ask {
        line: 7,
        stage: 0,
        number: 1,
    },
    Ask {
        line: 9,
        stage: 1,
        number: 2,
    },
    Ask {
        line: 11,
        stage: 0,
        number: 0,
    },
    Ask {
        line: 12,
        stage: 0,
        number: 109,
    },
    Ask {
        line: 11,
        stage: 2,
        number: 104,
    },
];

// A plan of two stages with known answers, and what becomes of an answer that was overwritten: a pattern that is no value
// is read as lowest.
#[test]
fn two_stages(rt: HostRuntime) -> Result<(), Fail> {
    let c = Chain::new(3)?;
    let mut stretch = [0u8; 138];
    let mut words = [0u32; 64];
    match settled(&mut lent(&c, &mut stretch, &mut words), 2, &PLAN) {
        Ok((sheet, count)) => {
            assert_eq!(rt; count, 2);
            let desk = lent(&c, &mut stretch, &mut words);
            assert_eq!(rt; readings_right(&desk, &sheet, &ASKS), 8);
            stretch[8] = 3;
            let desk = lent(&c, &mut stretch, &mut words);
            assert_eq!(rt; reading(&desk, &sheet, 1, 0), 0);
            Ok(())
        }
        Err(_) => {
            assert!(rt; false);
            Ok(())
        },
    }
}

// A line word that was overwritten is refused at settling, and the draft handed back.
#[test]
fn damaged_word(rt: HostRuntime) -> Result<(), Fail> {
    let c = Chain::new(3)?;
    let mut stretch = [0u8; 138];
    let mut words = [0u32; 64];
    let Ok((sheet, _)) = settled(&mut lent(&c, &mut stretch, &mut words), 2, &PLAN) else {
        assert!(rt; false);
        return Ok(());
    };
    let draft = lent(&c, &mut stretch, &mut words).reopen(sheet);
    words[1] = 0x40900100;
    let Err((draft, why)) = lent(&c, &mut stretch, &mut words).settle(draft) else {
        assert!(rt; false);
        return Ok(());
    };
    assert_eq!(rt; why.number(), 7);
    words[1] = 0x40700000;
    assert!(rt; lent(&c, &mut stretch, &mut words).settle(draft).is_ok());
    Ok(())
}

// Three stages in a row, the last one marked.
const ROW: [Entry; 4] = [
    Entry::Arrow(0, 1, 1),
    Entry::Arrow(1, 2, 1),
    Entry::Arrow(2, 2, 1),
    Entry::Mark(2, 0, 1),
];

// The same row, its arrows leading to smaller stages: a round that read what it has written would end it in one.
const ROW_BACK: [Entry; 4] = [
    Entry::Arrow(2, 1, 1),
    Entry::Arrow(1, 0, 1),
    Entry::Arrow(0, 0, 1),
    Entry::Mark(0, 0, 1),
];

// The rounds that a formula takes on a row of three stages.
fn row_rounds<L: Logic>(desk: &mut Desk<'_, L>, row: [Entry; 4], text: &'static str) -> u8 {
    let [a, b, c, d] = row;
    rounds(desk, 3, &[a, b, c, d, Entry::Text(text)])
}

#[test]
fn three_stages(rt: HostRuntime) -> Result<(), Fail> {
    let c = Chain::new(2)?;
    let mut stretch = [0u8; 210];
    let mut words = [0u32; 64];
    let desk = &mut lent(&c, &mut stretch, &mut words);
    assert_eq!(rt; row_rounds(desk, ROW, "EF p"), 3);
    assert_eq!(rt; row_rounds(desk, ROW_BACK, "EF p"), 3);
    assert_eq!(rt; row_rounds(desk, ROW, "EF F"), 0);
    assert_eq!(rt; row_rounds(desk, ROW, "EF T"), 1);
    Ok(())
}
