// Plan files: words that name a logic and spell the calls of a sheet over it, and what those calls answer.
#![tactic(auto)]

ghost use Rattle.std.specs.Prelude.{◌≡◌, ℕ, ◌<◌, ◌≤◌, [], Some, length, IfOk, ◌≢◌, slice_index};
ghost use Rattle.sheet.specs.Logics.{logic_at as logic_of_type};
ghost use Rattle.words.specs.declared.kind.Kind.TheVariants.{Table as table_kind};
ghost use Rattle.words.specs.Kinds.{kind_of};
ghost use Rattle.plan.specs.Plans.{plan_words, left_over, logic_at, Plan, PlanOver};

mod desk;
mod phase;
mod playing;

use crate::playing::{Rest, run_sheet, word_at};
use chains::chain::Chain;
use chains::sets::Sets;
use report::{Outcome, Stop};
use scale::Logic;
use std::alloc::{AllocError, Global};
use table::Table;
use table::bytes::words_of;
use words::kind::Kind;

// A plan has at most so many words.
const MOST_WORDS: usize = 8192;

// A plan that stops before it has a sheet prints nothing else.
fn stopped(heap: Global, stop: Option<Stop>) -> Outcome
    ensures outputs { result.outputs.items ≡ [] }
    ensures stop { result.stop ≡ stop }
{
    Outcome {
        outputs: Vec::new(heap),
        stop,
    }
}

// A plan whose logic is refused at a word prints nothing else.
fn refused(heap: Global, word: usize, why: scale::Refusal) -> Outcome
    ensures outputs { result.outputs.items ≡ [] }
    ensures stop { result.stop ≡ logic_at word why }
{
    let refusal = why.into();
    stopped(heap, Some(Stop { word, refusal }))
}

// What a plan comes to whose first word names a logic of a maker.
fn run_made<L: Logic + Drop>(
    heap: Global,
    made: Result<L, scale::Refusal>,
    rest: Rest,
) -> Result<Outcome, AllocError>
    ensures { IfOk result (λ o. PlanOver (logic_of_type L.Logic) made rest.entry.more rest.entry.at rest.entry.words.now o.outputs.items o.stop) }
{
    match made {
        Ok(logic) => run_sheet(heap, &logic, rest),
        Err(why) => Ok(refused(heap, 0, why)),
    }
}

// How many of the words are those of a table, before the first that is not.
fn table_words(words: &[u32]) -> usize
    ensures within { result ≤ length words.now }
    ensures each { (k : ℕ) → k < result → kind_of (slice_index words.now k) ≡ Some table_kind }
    ensures last { result < length words.now → kind_of (slice_index words.now result) ≢ Some table_kind }
{
    for (i, word) in words.iter().enumerate() {
        match Kind::of(*word) {
            Some(Kind::Table) => {}
            _ => return i,
        }
    }
    words.len()
}

// What a plan comes to whose first word is one of a table.
fn run_table(heap: Global, words: &[u32], more: bool) -> Result<Outcome, AllocError>
    requires few { length words.now ≤ 8192 }
    requires some { 0 < length words.now }
    requires first { kind_of (slice_index words.now 0) ≡ Some table_kind }
    ensures { IfOk result (λ o. Plan more words.now o.outputs.items o.stop) }
{
    let count = table_words(words);
    if count >= words.len() {
        return Ok(stopped(heap, word_at(count)));
    }
    let mut table = Table::new();
    let rest = Rest {
        words: &words[count..],
        at: count,
        more,
    };
    match table.load(&words[0..count]) {
        Ok(()) => run_sheet(heap, &table, rest),
        Err(why) => Ok(refused(heap, count, why)),
    }
}

// What the words of a plan come to; `more` says that bytes follow the last.
fn run_words(heap: Global, words: &[u32], more: bool) -> Result<Outcome, AllocError>
    requires few { length words.now ≤ 8192 }
    ensures { IfOk result (λ o. Plan more words.now o.outputs.items o.stop) }
{
    let [word, rest @ ..] = words else {
        return Ok(stopped(heap, word_at(0)));
    };
    let rest = Rest {
        words: rest,
        at: 1,
        more,
    };
    match Kind::of(*word) {
        Some(Kind::Chain { values }) => run_made(heap, Chain::new(values), rest),
        Some(Kind::Sets { members }) => run_made(heap, Sets::new(members), rest),
        Some(Kind::Table) => run_table(heap, words, more),
        _ => Ok(stopped(heap, word_at(0))),
    }
}

// What a plan file comes to.
pub fn run(heap: Global, bytes: &[u8]) -> Result<Outcome, AllocError>
    ensures { IfOk result (λ o. Plan (left_over bytes.now) (plan_words bytes.now) o.outputs.items o.stop) }
{
    let all = words_of(heap, bytes)?;
    let count = all.len().min(MOST_WORDS);
    let more = 4 * count < bytes.len();
    run_words(heap, &all.as_slice()[0..count], more)
}
