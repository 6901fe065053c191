// Cases at the edge of every refusal of a run to a destination (document 02, paper 7): those of test_generated::edges, but for the sums of 8,
// which are with the hold of an arc's head, and the eight lists of 10.
use test_generated::edges::{after, one_of};
use test_generated::{edges, random};
use test_reference_destination::refusals::ReversedWords;
use test_reference_map::case::Case;
use test_reference_map::map;
use test_reference_map::map::Lists;

// What the hold of an arc's head leaves of the ceiling.
pub fn left_at_head(case: Case, lists: &Lists, arc: u64) -> u32 {
    let head = map::head(lists, arc);
    if head >= u64::from(case.nodes) {
        return case.ceiling;
    }
    let left = u64::from(case.ceiling).saturating_sub(map::hold(lists, head));
    left as u32
}

// The cost of an arc and its head's hold together are the most there may be, or more.
fn put_sum(case: Case, word: u64, lists: &mut Lists) {
    let arc = u64::from(random::below(word, case.heads));
    let left = left_at_head(case, lists, arc);
    let cost = one_of(random::next(word), left, after(left), 4294967295);
    map::set(lists, map::COSTS, arc, u64::from(cost));
}

fn put_word(case: Case, refusal: u32, word: u64, lists: &mut Lists) {
    if refusal == 8 {
        put_sum(case, word, lists);
    } else {
        edges::words(case, refusal, word, lists);
    }
}

// 10: whether a list is a word too short; it is one list or another besides.
fn is_short(word: u64, list: u32) -> bool {
    let besides = random::below(random::next(word), 16);
    random::below(word, 8) == list || besides == list
}

fn cut(short: bool, kept: u32, needed: u32) -> u32 {
    if short {
        return needed.saturating_sub(1);
    }
    kept
}

// A word too short for one level, and so for two, or for two alone.
fn short_work(word: u64, n: u32) -> u32 {
    let by_node = n % 8192 * 4;
    if random::below(random::next(random::next(word)), 2) == 0 {
        return by_node + 63;
    }
    by_node + 383
}

fn with_lent(case: Case, word: u64) -> Case {
    let n = case.nodes;
    let work = if is_short(word, 3) {
        short_work(word, n)
    } else {
        case.work
    };
    Case {
        distances: cut(is_short(word, 0), case.distances, n),
        parents: cut(is_short(word, 1), case.parents, n),
        roster: cut(is_short(word, 2), case.roster, n),
        work,
        ..case
    }
}

fn put_number(case: Case, refusal: u32, word: u64) -> Case {
    if refusal == 10 {
        return with_lent(case, word);
    }
    edges::numbers(case, refusal, word)
}

// Two refusals, where behind 10 those up to 19 stand for none, and a word for each.
#[derive(Clone, Copy)]
pub struct Pair {
    first: u32,
    second: u32,
    third: u64,
    fourth: u64,
}

pub fn pair_of(number: u32) -> Pair {
    let word = random::seed(107, number);
    let third = random::next(word);
    Pair {
        first: edges::refusal_of(number % 11),
        second: random::below(word, 21),
        third,
        fourth: random::next(third),
    }
}

// The map and its case with one or two numbers or words at an edge.
pub fn put(case: Case, pair: Pair, lists: &mut Lists) -> Case {
    put_word(case, pair.first, pair.third, lists);
    put_word(case, pair.second, pair.fourth, lists);
    let changed = put_number(case, pair.first, pair.third);
    put_number(changed, pair.second, pair.fourth)
}

fn with_reversed(case: Case, reversed: ReversedWords, refusal: u32, word: u64) -> ReversedWords {
    let m = case.heads;
    if refusal != 10 {
        return reversed;
    }
    ReversedWords {
        starts: cut(is_short(word, 4), reversed.starts, case.starts),
        heads: cut(is_short(word, 5), reversed.heads, m),
        costs: cut(is_short(word, 6), reversed.costs, m),
        old_arcs: cut(is_short(word, 7), reversed.old_arcs, m),
    }
}

// The words lent of the reversed map's lists, of the case as it is without an edge.
pub fn put_reversed(case: Case, reversed: ReversedWords, pair: Pair) -> ReversedWords {
    let changed = with_reversed(case, reversed, pair.first, pair.third);
    with_reversed(case, changed, pair.second, pair.fourth)
}
