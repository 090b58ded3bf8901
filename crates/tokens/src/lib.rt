// The tokens of a formula text. A token is read at a place of the text, behind any spaces there, and a name is handed on
// as a part of the text.
#![tactic(auto)]

ghost use Rattle.std.specs.Prelude.{◌≡◌, ◌+◌, ◌≤◌, [], ◌∷◌, length, drop, MatchOption};
ghost use Rattle.tokens.specs.Bytes.{in_name, skip};
ghost use Rattle.tokens.specs.Tokens.{letter_of, prefix_bytes, Alone, Seen};
ghost use Rattle.tokens.specs.Shown.{tok_of};

use lines::Unary;

pub mod names;

// The most bytes of a name behind its first letter.
const MOST_BEHIND: usize = 15;

// A token: a listed name or a keyword or sign of the grammar; the end of the text; or a byte that begins no token.
// `End` and `Stray` are cases of their own, so that a reader refuses all that it does not take by one arm, with no
// `Option` round each token.
#[derive(Clone, Copy, PartialEq, Eq, Debug)]
pub enum Token<'a> {
    Name(&'a [u8]),
    Prefix(Unary),
    Quantifier(Paths),
    Between(Link),
    True,
    False,
    And,
    Or,
    Implies,
    Open,
    Close,
    Left,
    Right,
    End,
    Stray,
}

// The paths that an operator speaks of: E, some path; A, all paths.
#[derive(Clone, Copy, PartialEq, Eq, Debug)]
pub enum Paths {
    Exists,
    All,
}

// What stands between the two formulas in brackets: U or R.
#[derive(Clone, Copy, PartialEq, Eq, Debug)]
pub enum Link {
    Until,
    Release,
}

impl Paths {
    // The prefix that the letter of these paths makes with another letter, if there is one: EX, AX, EF, AF, EG or AG.
    fn prefix(self, letter: char) -> Option<Unary>
        ensures { MatchOption result (Alone (letter ∷ [])) (λ o. prefix_bytes o ≡ letter_of self ∷ letter ∷ []) }
    {
        match (self, letter) {
            (Paths::Exists, 'X') => Some(Unary::Ex),
            (Paths::All, 'X') => Some(Unary::Ax),
            (Paths::Exists, 'F') => Some(Unary::Ef),
            (Paths::All, 'F') => Some(Unary::Af),
            (Paths::Exists, 'G') => Some(Unary::Eg),
            (Paths::All, 'G') => Some(Unary::Ag),
            _ => None,
        }
    }
}

// Where the spaces from `from` on end.
fn skip_spaces(text: &[u8], from: usize) -> usize
    ensures is { drop result text.now ≡ skip (drop from text.now) }
    ensures within { result ≤ length text.now }
{
    let from = from.min(text.len());
    from + text[from..]
        .iter()
        .take_while(|b| **b as char == ' ')
        .count()
}

// Whether a byte can stand in a name behind its first letter.
fn in_name(b: u8) -> bool
    ensures { result ≡ in_name b }
{
    matches!(b as char, 'a'..='z' | '0'..='9' | '_')
}

// The token that begins with the letter of `paths`, before the bytes `behind`, and how many bytes it has.
fn quantified<'a>(paths: Paths, behind: &'a [u8]) -> (Token<'a>, usize)
    ensures seen { Seen (letter_of paths ∷ behind.now) (tok_of result.0) (drop result.1 (letter_of paths ∷ behind.now)) }
    ensures within { result.1 ≤ length behind.now + 1 }
{
    match behind.first().and_then(|b| paths.prefix(*b as char)) {
        Some(op) => (Token::Prefix(op), 2),
        None => (Token::Quantifier(paths), 1),
    }
}

// The token that begins with `-`, before the bytes `behind`, and how many bytes it has: `->`, or none.
fn arrow<'a>(behind: &'a [u8]) -> (Token<'a>, usize)
    ensures seen { Seen (45 ∷ behind.now) (tok_of result.0) (drop result.1 (45 ∷ behind.now)) }
    ensures within { result.1 ≤ length behind.now + 1 }
{
    match behind.first().map(|b| *b as char) {
        Some('>') => (Token::Implies, 2),
        _ => (Token::Stray, 1),
    }
}

// The token at the front of a text that begins with no space, and how many bytes it has.
fn front<'a>(text: &'a [u8]) -> (Token<'a>, usize)
    requires { skip text.now ≡ text.now }
    ensures seen { Seen text.now (tok_of result.0) (drop result.1 text.now) }
    ensures within { result.1 ≤ length text.now }
{
    let Some((first, behind)) = text.split_first() else {
        return (Token::End, 0);
    };
    match *first as char {
        '!' => (Token::Prefix(Unary::Not), 1),
        '&' => (Token::And, 1),
        '|' => (Token::Or, 1),
        '-' => arrow(behind),
        '(' => (Token::Open, 1),
        ')' => (Token::Close, 1),
        '[' => (Token::Left, 1),
        ']' => (Token::Right, 1),
        'T' => (Token::True, 1),
        'F' => (Token::False, 1),
        'U' => (Token::Between(Link::Until), 1),
        'R' => (Token::Between(Link::Release), 1),
        'E' => quantified(Paths::Exists, behind),
        'A' => quantified(Paths::All, behind),
        'a'..='z' => {
            let n = behind.iter().take_while(|b| in_name(**b)).count();
            if n > MOST_BEHIND {
                return (Token::Stray, 1);
            }
            (Token::Name(&text[..1 + n]), 1 + n)
        }
        _ => (Token::Stray, 1),
    }
}

// The token at the place `at` of a text, behind any spaces there, and where it ends.
pub fn token_at<'a>(text: &'a [u8], at: usize) -> (Token<'a>, usize)
    ensures { Seen (drop at text.now) (tok_of result.0) (drop result.1 text.now) }
{
    if at >= text.len() {
        return (Token::End, at);
    }
    let start = skip_spaces(text, at);
    let (token, n) = front(&text[start..]);
    (token, start + n)
}
