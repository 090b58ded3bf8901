// Reads a formula's text, and appends the lines of its tree to the words of a sheet.
#![tactic(auto)]

ghost use Rattle.std.specs.Prelude.{◌≡◌, ◌+◌, ◌<◌, ◌≤◌, length, slice_set};
ghost use Rattle.lines.specs.Word.{word_of};
ghost use Rattle.tokens.specs.Shown.{tok_of};
ghost use Rattle.tokens.specs.Tokens.{Seen};
ghost use Rattle.formula.specs.Grammar.{unit, con, alt, formula, path_of, OneTree};
ghost use Rattle.formula.specs.Tells.{unread, names, Eats, Expects, Last, Tells, Keeps, Counts, Written, Outcome, cleared};

use crate::mark_names::Marks;
use lines::{Binary, Line, Refusal};
use tokens::{Link, Paths, Token, token_at};

mod mark_names;

// The most lines that a sheet holds.
const MOST_LINES: usize = 64;

// The most bytes that a text has.
const MOST_BYTES: usize = 1024;

// A text, the place in it that reading has come to, and the marks that its names stand for.
#[derive(Drop)]
struct Reader<'a> {
    text: &'a [u8],
    at: usize,
    marks: Marks<'a>,
}

// The words of a sheet, lent by its caller, and how many lines there are. A line past the words is counted, and not written.
#[derive(Drop)]
struct Output<'a> {
    words: &'a mut [u32],
    count: usize,
}

impl<'a> Output<'a> {
    // Writes a line behind the others, if there is room for it, and counts it. Answers the line's number; past 256 lines,
    // which no sheet holds, that is 255.
    fn push(&mut self, line: Line) -> u8
        requires { self.old.count < 65536 }
        ensures words { self.new.words.now ≡ slice_set self.old.words.now self.old.count (word_of line) }
        ensures count { self.new.count ≡ self.old.count + 1 }
        ensures number { Last self.new.count result }
        ensures same { self.new.words.ghost_name ≡ self.old.words.ghost_name }
    {
        let number = self.count;
        // By index, since a proof knows no element after `get_mut`.
        if number < self.words.len() {
            self.words[number] = line.word();
        }
        self.count += 1;
        number.min(255) as u8
    }
}

// The operator that E or A makes with U or R.
fn path_operator(paths: Paths, link: Link) -> Binary
    ensures { result ≡ path_of paths link }
{
    match (paths, link) {
        (Paths::Exists, Link::Until) => Binary::Eu,
        (Paths::All, Link::Until) => Binary::Au,
        (Paths::Exists, Link::Release) => Binary::Er,
        (Paths::All, Link::Release) => Binary::Ar,
    }
}

impl<'a> Reader<'a> {
    // The token at the reader's place, which the reader goes past.
    fn next_token(&mut self) -> Token<'a>
        ensures seen { Seen (unread self.old) (tok_of result) (unread self.new) }
        ensures same { names self.new ≡ names self.old }
    {
        let (token, end) = token_at(self.text, self.at);
        self.at = end;
        token
    }

    // Goes past this token, if it is the next one.
    fn eat(&mut self, token: Token<'_>) -> bool
        ensures { Eats self.old (tok_of token.entry) result self.new }
    {
        let (next, end) = token_at(self.text, self.at);
        let eaten = next == token;
        if eaten {
            self.at = end;
        }
        eaten
    }

    // Goes past this token, or refuses the text.
    fn expect(&mut self, token: Token<'_>) -> Result<(), Refusal>
        ensures { Expects self.old (tok_of token.entry) result self.new }
    {
        if self.eat(token) {
            Ok(())
        } else {
            Err(Refusal::Text)
        }
    }

    // formula: an alt, or an alt, `->` and a formula.
    // Each reader writes the lines of what it reads behind those of `out`, and answers the number of the last one. What each
    // requires is of a reader and an output together, so it is no ghost field of either.
    #[cycle(alt_con_formula_unit)]
    fn formula(&mut self, out: &mut Output<'_>) -> Result<u8, Refusal>
        requires { out.old.count + length (unread self.old) < 65536 }
        ensures tells { Tells formula self.old out.old result self.new out.new }
        ensures keeps { Keeps self.old out.old self.new out.new }
    {
        let left = self.alt(out)?;
        if !self.eat(Token::Implies) {
            return Ok(left);
        }
        let right = self.formula(out)?;
        Ok(out.push(Line::Two(Binary::Implies, left, right)))
    }

    // alt: cons joined by `|`, grouped leftward.
    // One helper for `alt` and `con` would call what it is passed, and a cycle of calls through a closure gets no proof.
    #[cycle(alt_con_formula_unit)]
    fn alt(&mut self, out: &mut Output<'_>) -> Result<u8, Refusal>
        requires { out.old.count + length (unread self.old) < 65536 }
        ensures tells { Tells alt self.old out.old result self.new out.new }
        ensures keeps { Keeps self.old out.old self.new out.new }
    {
        let mut left = self.con(out)?;
        'more: while self.eat(Token::Or) {
            let right = self.con(out)?;
            left = out.push(Line::Two(Binary::Or, left, right));
        }
        Ok(left)
    }

    // con: units joined by `&`, grouped leftward.
    #[cycle(alt_con_formula_unit)]
    fn con(&mut self, out: &mut Output<'_>) -> Result<u8, Refusal>
        requires { out.old.count + length (unread self.old) < 65536 }
        ensures tells { Tells con self.old out.old result self.new out.new }
        ensures keeps { Keeps self.old out.old self.new out.new }
    {
        let mut left = self.unit(out)?;
        'more: while self.eat(Token::And) {
            let right = self.unit(out)?;
            left = out.push(Line::Two(Binary::And, left, right));
        }
        Ok(left)
    }

    // unit: T, F, a listed name, a prefix before a unit, E or A with two formulas in brackets, a formula in parentheses.
    #[cycle(alt_con_formula_unit)]
    fn unit(&mut self, out: &mut Output<'_>) -> Result<u8, Refusal>
        requires { out.old.count + length (unread self.old) < 65536 }
        ensures tells { Tells unit self.old out.old result self.new out.new }
        ensures keeps { Keeps self.old out.old self.new out.new }
    {
        match self.next_token() {
            Token::True => Ok(out.push(Line::True)),
            Token::False => Ok(out.push(Line::False)),
            Token::Name(name) => {
                let mark = self.marks.number(name)?;
                Ok(out.push(Line::Mark(mark)))
            }
            Token::Prefix(op) => {
                let inner = self.unit(out)?;
                Ok(out.push(Line::One(op, inner)))
            }
            Token::Quantifier(paths) => {
                self.expect(Token::Left)?;
                let left = self.formula(out)?;
                let Token::Between(link) = self.next_token() else {
                    return Err(Refusal::Text);
                };
                let right = self.formula(out)?;
                self.expect(Token::Right)?;
                Ok(out.push(Line::Two(path_operator(paths, link), left, right)))
            }
            Token::Open => {
                let inner = self.formula(out)?;
                self.expect(Token::Close)?;
                Ok(inner)
            }
            _ => Err(Refusal::Text),
        }
    }
}

// How many lines there are with those of the text's tree, `count` before them: the text is read, and nothing is written.
fn count_lines(marks: Marks<'_>, text: &[u8], count: usize) -> Result<usize, Refusal>
    requires { count ≤ 64 }
    ensures { Counts marks.entry.list.now text.now count result }
{
    if text.len() > MOST_BYTES {
        return Err(Refusal::Text);
    }
    let mut reader = Reader { text, at: 0, marks };
    let mut none = [0u32; 0];
    let mut out = Output {
        words: &mut none,
        count,
    };
    reader.formula(&mut out)?;
    reader.expect(Token::End)?;
    Ok(out.count)
}

// Writes the lines of the text's tree behind the first `held` words, if there is a tree and room for it, and answers how many
// lines there are then.
fn write_lines(marks: Marks<'_>, text: &[u8], held: usize, words: &mut [u32]) -> Result<u8, Refusal>
    requires { held ≤ 64 }
    ensures { Written marks.entry.list.now text.now held words.old result words.new }
{
    let total = count_lines(marks, text, held)?;
    if total > words.len().min(MOST_LINES) {
        return Err(Refusal::Full);
    }
    let mut reader = Reader { text, at: 0, marks };
    let mut out = Output { words, count: held };
    reader.formula(&mut out)?;
    Ok(total as u8)
}

// Sets the words from `from` on to zero.
fn clear(words: &mut [u32], from: usize)
    ensures { words.new ≡ cleared from words.old }
{
    let from = from.min(words.len());
    words[from..].fill(0);
}

// Appends the lines of the formula that `text` spells to the first `count` of `words`, and answers how many lines there are
// then. `names` lists the names of the `marks` marks. A count over 64 is read as 64, and there is room for as many lines as
// words are lent, up to 64. Refused in this order: Names, Text, Full; as Text or Full the words behind the lines become zero.
pub fn append(
    names: &[u8],
    text: &[u8],
    marks: u8,
    count: u8,
    words: &mut [u32],
) -> Result<u8, Refusal>
    ensures outcome { Outcome names.now text.now marks count words.old result words.new }
    ensures single { OneTree }
{
    let marks = Marks::new(names, marks)?;
    let held = (count as usize).min(MOST_LINES);
    let written = write_lines(marks, text, held, words);
    if written.is_err() {
        clear(words, held);
    }
    written
}
