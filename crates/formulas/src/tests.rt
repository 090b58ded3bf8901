// What texts become on a sheet, by examples.
use formula::append;
use lines::Line;

const NAMES: &str = "p q";

// How many lines there are with those of a text, or the number of its refusal.
fn answer(names: &str, marks: u8, text: &[u8], count: u8, words: &mut [u32]) -> Result<u8, u8> {
    append(names.as_bytes(), text, marks, count, words).map_err(|why| why.number())
}

// The same on an empty sheet of which nothing is asked.
fn answer_alone(names: &str, marks: u8, text: &[u8]) -> Result<u8, u8> {
    let mut words = [0u32; 64];
    answer(names, marks, text, 0, &mut words)
}

// Whether a text becomes exactly these words on an empty sheet with the marks p and q.
fn becomes(text: &str, want: &[u32]) -> bool {
    let mut words = [0u32; 64];
    let lines = answer(NAMES, 2, text.as_bytes(), 0, &mut words);
    lines.is_ok_and(|n| n as usize == want.len()) && words.starts_with(want)
}

// Puts a byte at every second place.
fn at_even_places(text: &mut [u8], byte: u8) {
    for b in text.iter_mut().step_by(2) {
        *b = byte;
    }
}

// How many lines a text has on an empty sheet, if its last one has this word.
fn lines_to(text: &str, word: u32) -> Option<u8> {
    let mut words = [0u32; 64];
    let lines = answer(NAMES, 2, text.as_bytes(), 0, &mut words).ok()?;
    let last = words.get((lines as usize).checked_sub(1)?)?;
    if *last == word { Some(lines) } else { None }
}

#[test]
fn operators(rt: HostRuntime) {
    let mut word = 0x4000_0000u32;
    for text in "F;T;p;!p;p & q;p|q;p -> q;EX p;AX p;EF p;AF p;EG p;AG p;E[pUq];A[p U q];E[p R q];A[ p R q ]".split(
        ';',
    ) {
        assert!(rt;
            lines_to(text, word).is_some() || lines_to(text, word.wrapping_add(1)) == Some(3),
            "{}",
            text
        );
        word = word.wrapping_add(0x10_0000);
    }
    assert!(rt; word == 0x4110_0000);
}

#[test]
fn grouping(rt: HostRuntime) {
    let (p, q) = (0x4020_0000, 0x4020_0001);
    assert!(rt; becomes("p -> q -> p", &[p, q, p, 0x4060_0102, 0x4060_0003]));
    assert!(rt; becomes("p & q & p", &[p, q, 0x4040_0001, p, 0x4040_0203]));
    assert!(rt; becomes("p | q & p", &[p, q, p, 0x4040_0102, 0x4050_0003]));
    assert!(rt; becomes("(p | q) & p", &[p, q, 0x4050_0001, p, 0x4040_0203]));
    assert!(rt; becomes("!EX p & q", &[p, 0x4070_0000, 0x4030_0100, q, 0x4040_0203]));
    assert!(rt; becomes("AFF", &[0x4000_0000, 0x40a0_0000]));
    assert!(rt; becomes("E[TUp]", &[0x4010_0000, p, 0x40d0_0001]));
}

#[test]
fn refusals(rt: HostRuntime) {
    for text in "; ;E X p;p - > q;p\t& q;p q;(p;p);p &;& p;E[p q];E[p U q;E(p U q);X p;G;milk;pp;P;EX;p -> ;A".split(
        ';',
    ) {
        assert!(rt;
            answer_alone(NAMES, 2, text.as_bytes()) == Err(16),
            "{}",
            text
        );
    }
    for list in "p;p q r;p p;p  q; p;p ;P q;p 2q;p,q;p abcdefghijklmnopq;".split(';') {
        assert!(rt;
            answer_alone(list, 2, "E X p".as_bytes()) == Err(15),
            "{}",
            list
        );
    }
    assert!(rt; answer_alone("", 0, "T".as_bytes()) == Ok(1));
    assert!(rt; answer_alone("p_2 abcdefghijklmnop", 2, "abcdefghijklmnop".as_bytes()) == Ok(1));
}

#[test]
fn room(rt: HostRuntime) {
    let mut words = [7u32; 70];
    assert!(rt; answer(NAMES, 2, b"q", 63, &mut words) == Ok(64));
    assert!(rt; words[62] == 7 && words[63] == 0x4020_0001 && words[64] == 7);
    assert!(rt; answer(NAMES, 2, b"!q", 63, &mut words) == Err(8));
    assert!(rt; words[62] == 7 && words[63] == 0 && words[69] == 0);
    assert!(rt; answer(NAMES, 2, b"q", 200, &mut words) == Err(8));
    assert!(rt; answer(NAMES, 2, b"E X p", 2, &mut words) == Err(16));
    assert!(rt; words[1] == 7 && words[2] == 0);
    let mut few = [7u32; 2];
    assert!(rt; answer(NAMES, 2, b"!q", 0, &mut few) == Ok(2));
    assert!(rt; answer(NAMES, 2, b"!q", 1, &mut few) == Err(8));
}

#[test]
fn long_texts(rt: HostRuntime) {
    let mut text = [b' '; 1025];
    text[0] = b'p';
    assert!(rt; answer_alone(NAMES, 2, &text[0..1024]) == Ok(1));
    assert!(rt; answer_alone(NAMES, 2, &text) == Err(16));
    let mut joined = [b'&'; 66];
    joined[0] = b'!';
    at_even_places(&mut joined[1..66], b'p');
    assert!(rt; answer_alone(NAMES, 2, &joined[0..64]) == Ok(64));
    assert!(rt; answer_alone(NAMES, 2, &joined[1..66]) == Err(8));
}

#[test]
fn deep_texts(rt: HostRuntime) {
    assert!(rt; answer_alone(NAMES, 2, &[b'('; 1024]) == Err(16));
    let mut nots = [b'!'; 1024];
    nots[1023] = b'p';
    assert!(rt; answer_alone(NAMES, 2, &nots) == Err(8));
    assert!(rt; answer_alone(NAMES, 2, &nots[960..1024]) == Ok(64));
    let mut nested = [b'('; 1023];
    nested[511] = b'p';
    nested[512..1023].fill(b')');
    assert!(rt; answer_alone(NAMES, 2, &nested) == Ok(1));
}

#[test]
fn words_back(rt: HostRuntime) {
    for word in [
        0x4020_0001,
        0x4110_0000,
        0x4031_0000,
        0x4030_0001,
        0x4030_0100,
        0x4010_0001,
        0x5010_0000,
    ] {
        assert!(rt; Line::read(word, 1, 1).is_err());
    }
    assert!(rt; Line::read(0x4090_0000, 0, 1).is_err() && Line::read(0x4090_0000, 1, 1).is_ok());
}
