// Plans with what they must print.
use std::alloc::{AllocError, Global};
use std::test::Fail;

// What the bytes of some words print, with more bytes behind them.
fn printed(heap: Global, words: &[u32], more: &[u8]) -> Result<String, AllocError> {
    let mut bytes = Vec::new(heap);
    for word in words {
        bytes.extend_from_slice(&word.to_le_bytes())?;
    }
    bytes.extend_from_slice(more)?;
    plan::run(heap, bytes.as_slice())?.text(heap)
}

// Refusals at their words, and the shortest plans.
const SHORT: [(&[u32], &str); 49] = [
    // empty
    (&[], "word 0 refusal 17\n"),
    // ask first
    (&[0x50000000], "word 0 refusal 17\n"),
    // kind 9 first
    (&[0x90000000], "word 0 refusal 17\n"),
    // chains of 1 and of 65 values, sets of 0 and of 13 members
    (&[0x70000001], "word 0 refusal 10\n"),
    (&[0x70000041], "word 0 refusal 10\n"),
    (&[0x80000000], "word 0 refusal 10\n"),
    (&[0x8000000D], "word 0 refusal 10\n"),
    // an unused bit is found before the range
    (&[0x70000101], "word 0 refusal 17\n"),
    (&[0x80010000], "word 0 refusal 17\n"),
    // the ends of the ranges, and an end right after the size
    (&[0x70000002, 0x10000201, 0x00000000], ""),
    (&[0x70000040, 0x10000201, 0x00000000], ""),
    (&[0x80000001, 0x10000201, 0x00000000], ""),
    (&[0x8000000C, 0x10004010, 0x00000000], ""),
    // no size
    (&[0x70000003], "word 1 refusal 17\n"),
    (&[0x70000003, 0x20000000], "word 1 refusal 17\n"),
    // size twice
    (&[0x70000003, 0x10000201, 0x10000201], "word 2 refusal 17\n"),
    // 0 and 65 stages, 17 marks; an unused bit before them
    (&[0x70000003, 0x10000001], "word 1 refusal 1\n"),
    (&[0x70000003, 0x10004100], "word 1 refusal 1\n"),
    (&[0x70000003, 0x10000211], "word 1 refusal 1\n"),
    (&[0x70000003, 0x10014100], "word 1 refusal 17\n"),
    // a logic twice
    (&[0x70000003, 0x10000201, 0x70000003], "word 2 refusal 17\n"),
    // no end
    (&[0x70000003, 0x10000201], "word 2 refusal 17\n"),
    // two ends
    (
        &[0x70000003, 0x10000201, 0x00000000, 0x00000000],
        "word 3 refusal 17\n",
    ),
    // an arrow after the end
    (
        &[0x70000003, 0x10000201, 0x00000000, 0x20001001],
        "word 3 refusal 17\n",
    ),
    // an end with an unused bit
    (&[0x70000003, 0x10000201, 0x00000001], "word 2 refusal 17\n"),
    // kind 9 on the sheet
    (&[0x70000003, 0x10000201, 0x90000000], "word 2 refusal 17\n"),
    // an arrow from and to stage 2 of 2, and of value 3 of 3
    (&[0x70000003, 0x10000201, 0x20200000], "word 2 refusal 4\n"),
    (&[0x70000003, 0x10000201, 0x20002000], "word 2 refusal 4\n"),
    (&[0x70000003, 0x10000201, 0x20000003], "word 2 refusal 6\n"),
    // a mark at stage 2 of 2, mark 1 of 1, value 3 of 3
    (&[0x70000003, 0x10000201, 0x30200000], "word 2 refusal 4\n"),
    (&[0x70000003, 0x10000201, 0x30001000], "word 2 refusal 5\n"),
    (&[0x70000003, 0x10000201, 0x30000003], "word 2 refusal 6\n"),
    // line words: wrong bits, no earlier line, out of phase
    (&[0x70000003, 0x10000201, 0x400F0000], "word 2 refusal 7\n"),
    (&[0x70000003, 0x10000201, 0x40900000], "word 2 refusal 7\n"),
    (&[0x70000003, 0x400F0000], "word 1 refusal 17\n"),
    // asks: a missing line settles first, an unused bit does not; a missing stage; both
    (
        &[0x70000003, 0x10000201, 0x50000000],
        "rounds 0\nword 2 refusal 9\n",
    ),
    (&[0x70000003, 0x10000201, 0x50000001], "word 2 refusal 17\n"),
    (
        &[0x70000003, 0x10000201, 0x40100000, 0x50002000],
        "rounds 0\nword 3 refusal 4\n",
    ),
    (
        &[0x70000003, 0x10000201, 0x40100000, 0x50000000, 0x50102000],
        "rounds 0\n0 0 2\nword 4 refusal 9\n",
    ),
    // tables are judged at the word after them: of 1 value, of wrong bits, no lattice, not distributive, no opposites
    (&[0x60000001, 0x10000201], "word 1 refusal 11\n"),
    (&[0x60010001, 0x60100003, 0x90000000], "word 2 refusal 11\n"),
    (&[0x60010001, 0x60000002, 0x00000000], "word 2 refusal 12\n"),
    (
        &[
            0x60040001, 0x60010003, 0x60020005, 0x60030009, 0x6000001F, 0x10000201,
        ],
        "word 5 refusal 13\n",
    ),
    (&[0x60000001, 0x60010003, 0x50000000], "word 2 refusal 14\n"),
    // a table of 17 values
    (
        &[
            0x60000001, 0x60000001, 0x60000001, 0x60000001, 0x60000001, 0x60000001, 0x60000001,
            0x60000001, 0x60000001, 0x60000001, 0x60000001, 0x60000001, 0x60000001, 0x60000001,
            0x60000001, 0x60000001, 0x60000001, 0x10000201,
        ],
        "word 17 refusal 11\n",
    ),
    // no word after a table, good or bad
    (&[0x60010001, 0x60000003], "word 2 refusal 17\n"),
    (&[0x60000001], "word 1 refusal 17\n"),
    // after a table no other logic
    (&[0x60010001, 0x60000003, 0x70000003], "word 2 refusal 17\n"),
    // a table whose lowest value has number 1
    (
        &[
            0x60010003, 0x60000002, 0x10000100, 0x40000000, 0x40100000, 0x50000000, 0x50100000,
            0x00000000,
        ],
        "rounds 0\n0 0 1\n1 0 0\n",
    ),
];

#[test]
fn short_plans(rt: HostRuntime) -> Result<(), Fail> {
    for (words, text) in &SHORT {
        assert_eq!(rt; printed(rt.alloc(), words, &[])?.as_str(), *text);
    }
    Ok(())
}

// A chain of 3: EF and AF of a mark.
const FIRST: [u32; 11] = [
    0x70000003, 0x10000201, 0x20001001, 0x20101002, 0x30100002, 0x40200000, 0x40900000, 0x40A00000,
    0x50100000, 0x50200000, 0x00000000,
];

const FIRST_PRINTS: &str = "rounds 2\n1 0 1\n2 0 1\n";

// Six values, every operator: asks of all lines at stage 0, and of most at stage 1, with one settling.
const SIX: [u32; 68] = [
    0x60050001, 0x60040003, 0x60020007, 0x6003000B, 0x6001001F, 0x6000003F, 0x10000302, 0x20001004,
    0x20102003, 0x20200005, 0x20202002, 0x20101001, 0x30000004, 0x30100002, 0x30200005, 0x30001001,
    0x30201003, 0x40000000, 0x40100000, 0x40200000, 0x40200001, 0x40300200, 0x40400203, 0x40500203,
    0x40600203, 0x40700200, 0x40800200, 0x40900200, 0x40A00200, 0x40B00200, 0x40C00200, 0x40D00203,
    0x40E00203, 0x40F00203, 0x41000203, 0x50000000, 0x50100000, 0x50200000, 0x50300000, 0x50400000,
    0x50500000, 0x50600000, 0x50700000, 0x50800000, 0x50900000, 0x50A00000, 0x50B00000, 0x50C00000,
    0x50D00000, 0x50E00000, 0x50F00000, 0x51000000, 0x51100000, 0x50401000, 0x50501000, 0x50601000,
    0x50701000, 0x50801000, 0x50901000, 0x50A01000, 0x50B01000, 0x50C01000, 0x50D01000, 0x50E01000,
    0x50F01000, 0x51001000, 0x51101000, 0x00000000,
];

const SIX_PRINTS: &str =
    "rounds 3\n0 0 0\n1 0 5\n2 0 4\n3 0 1\n4 0 1\n5 0 1\n6 0 4\n7 0 1\n8 0 2\n9 0 2\n10 0 4\n11 0 4\n12 0 2\n13 0 2\n14 0 1\n15 0 1\n16 0 1\n17 0 1\n4 1 2\n5 1 0\n6 1 2\n7 1 2\n8 1 3\n9 1 4\n10 1 4\n11 1 4\n12 1 2\n13 1 2\n14 1 1\n15 1 1\n16 1 0\n17 1 0\n";

// Sets of 3 members, every operator.
const SETS: [u32; 44] = [
    0x80000003, 0x10000302, 0x20001007, 0x20102005, 0x20200003, 0x20202006, 0x30000006, 0x30100002,
    0x30200005, 0x30001001, 0x30201003, 0x40000000, 0x40100000, 0x40200000, 0x40200001, 0x40300200,
    0x40400203, 0x40500203, 0x40600203, 0x40700200, 0x40800200, 0x40900200, 0x40A00200, 0x40B00200,
    0x40C00200, 0x40D00203, 0x40E00203, 0x40F00203, 0x41000203, 0x50400000, 0x50500000, 0x50600000,
    0x50700000, 0x50800000, 0x50900000, 0x50A00000, 0x50B00000, 0x50C00000, 0x50D00000, 0x50E00000,
    0x50F00000, 0x51000000, 0x51100000, 0x00000000,
];

const SETS_PRINTS: &str =
    "rounds 3\n4 0 1\n5 0 0\n6 0 7\n7 0 1\n8 0 2\n9 0 2\n10 0 7\n11 0 7\n12 0 2\n13 0 2\n14 0 1\n15 0 1\n16 0 0\n17 0 0\n";

// A chain of 5: an entry after an ask reopens the sheet, and later answers have it.
const REOPENED: [u32; 16] = [
    0x70000005, 0x10000301, 0x20001003, 0x20102004, 0x20202004, 0x30200004, 0x40200000, 0x40900000,
    0x50100000, 0x20001001, 0x50100000, 0x50101000, 0x50002000, 0x40A00000, 0x50200000, 0x00000000,
];

const REOPENED_PRINTS: &str = "rounds 3\n1 0 3\nrounds 3\n1 0 1\n1 1 4\n0 2 4\nrounds 3\n2 0 1\n";

#[test]
fn long_plans(rt: HostRuntime) -> Result<(), Fail> {
    assert_eq!(rt; printed(rt.alloc(), &FIRST, &[])?.as_str(), FIRST_PRINTS);
    assert_eq!(rt; printed(rt.alloc(), &SIX, &[])?.as_str(), SIX_PRINTS);
    assert_eq!(rt; printed(rt.alloc(), &SETS, &[])?.as_str(), SETS_PRINTS);
    assert_eq!(rt;
        printed(rt.alloc(), &REOPENED, &[])?.as_str(),
        REOPENED_PRINTS
    );
    Ok(())
}

// Bytes that are no word: alone, after words, after the end, and after a table that would be refused.
#[test]
fn cut_short(rt: HostRuntime) -> Result<(), Fail> {
    let heap = rt.alloc();
    assert_eq!(rt; printed(heap, &[], &[3])?.as_str(), "word 0 refusal 17\n");
    assert_eq!(rt;
        printed(heap, &FIRST[0..2], &[0, 0, 0])?.as_str(),
        "word 2 refusal 17\n"
    );
    assert_eq!(rt;
        printed(heap, &FIRST, &[0])?.as_str(),
        "rounds 2\n1 0 1\n2 0 1\nword 11 refusal 17\n"
    );
    assert_eq!(rt;
        printed(heap, &[0x60000001], &[1, 0, 0])?.as_str(),
        "word 1 refusal 17\n"
    );
    Ok(())
}

// A word as often as wanted, behind some others.
fn repeated(heap: Global, words: &[u32], word: u32, times: usize) -> Result<Vec<u32>, AllocError> {
    let mut all = Vec::from_slice(heap, words)?;
    for _ in 0..times {
        all.push(word)?;
    }
    Ok(all)
}

// 8,192 words are a plan; word 8,192 is refused when it is reached, and not before.
#[test]
fn most_words(rt: HostRuntime) -> Result<(), Fail> {
    let heap = rt.alloc();
    let mut all = repeated(heap, &FIRST[0..2], 0x20001001, 8189)?;
    all.push(0)?;
    assert_eq!(rt; printed(heap, all.as_slice(), &[])?.as_str(), "");
    let mut over = repeated(heap, &FIRST[0..2], 0x20001001, 8190)?;
    assert_eq!(rt;
        printed(heap, over.as_slice(), &[])?.as_str(),
        "word 8192 refusal 17\n"
    );
    over.push(0)?;
    assert_eq!(rt;
        printed(heap, over.as_slice(), &[])?.as_str(),
        "word 8192 refusal 17\n"
    );
    over.push(0x50000000)?;
    assert_eq!(rt;
        printed(heap, over.as_slice(), &[])?.as_str(),
        "word 8192 refusal 17\n"
    );
    Ok(())
}

// 64 stages and 16 marks, 64 lines T: the 65th is refused as such, well formed or not.
#[test]
fn largest_sheet(rt: HostRuntime) -> Result<(), Fail> {
    let heap = rt.alloc();
    let mut full = repeated(heap, &[0x70000040, 0x10004010], 0x40100000, 64)?;
    full.extend_from_slice(&[0x53F3F000, 0])?;
    assert_eq!(rt;
        printed(heap, full.as_slice(), &[])?.as_str(),
        "rounds 0\n63 63 63\n"
    );
    let over = repeated(heap, &[0x70000040, 0x10004010], 0x40100000, 65)?;
    assert_eq!(rt;
        printed(heap, over.as_slice(), &[])?.as_str(),
        "word 66 refusal 8\n"
    );
    let mut odd = repeated(heap, &[0x70000040, 0x10004010], 0x40100000, 64)?;
    odd.push(0x400F0000)?;
    assert_eq!(rt;
        printed(heap, odd.as_slice(), &[])?.as_str(),
        "word 66 refusal 8\n"
    );
    Ok(())
}
