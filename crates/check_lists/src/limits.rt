// Words above a limit, as of numbers 7, 8 and 20 (document 01, "What a call returns"; document 02, paper 2). A pass that only gathers
// whether there is one compiles to packed instructions; its index is looked for only then.
ghost use Rattle.std.specs.Prelude.{◌≡◌, false, ◌-◌, ◌≤◌, ◌<◌, length};
ghost use Rattle.check_lists.specs.Lists.{NoneAbove, least_failing, least_fault, word_above, above_check, heads_check, holds_check};

use model::{Fault, Kind};

pub fn heads_check(n: u32, heads: &[u32]) -> Result<(), Fault>
    requires { 0 < n }
    ensures { result ≡ heads_check n heads.now }
{
    limit_check(Kind::Head, n - 1, heads)
}

pub fn holds_check(n: u32, ceiling: u32, holds: &[u32]) -> Result<(), Fault>
    ensures { result ≡ holds_check n ceiling holds.now }
{
    if holds.len() != n as usize {
        return Err(Fault {
            kind: Kind::Hold,
            place: 0,
        });
    }
    limit_check(Kind::Hold, ceiling, holds)
}

fn limit_check(kind: Kind, limit: u32, words: &[u32]) -> Result<(), Fault>
    ensures { result ≡ above_check kind limit words.now }
{
    if any_above(limit, words) {
        least_above(kind, limit, words, 0, words.len())
    } else {
        Ok(())
    }
}

pub fn any_above(limit: u32, words: &[u32]) -> bool
    ensures none { result ≡ false → NoneAbove limit words.now }
    ensures some { NoneAbove limit words.now → result ≡ false }
{
    let mut any = false;
    for word in words {
        any = any | (*word > limit);
    }
    any
}

pub fn least_above(
    kind: Kind,
    limit: u32,
    words: &[u32],
    first: usize,
    last: usize,
) -> Result<(), Fault>
    requires { last ≤ length words.now }
    ensures { result ≡ least_fault kind (word_above limit words.now) first (last - first) }
{
    match first_above(limit, words, first, last) {
        Some(place) => Err(Fault { kind, place }),
        None => Ok(()),
    }
}

// The place alone, for a fault of any number (document 01, "What a call returns").
pub fn first_above(limit: u32, words: &[u32], first: usize, last: usize) -> Option<usize>
    requires { last ≤ length words.now }
    ensures { result ≡ least_failing (word_above limit words.now) first (last - first) }
{
    for i in first..last {
        if words[i] > limit {
            return Some(i);
        }
    }
    None
}
