// Number 8: an arc's cost together with its tail's hold above the ceiling (document 02, paper 2). No sum is formed, so none can wrap: a
// cost is held against what a hold leaves of the ceiling.
#![tactic(auto)]

ghost use Rattle.std.specs.Prelude.{◌≡◌};
ghost use Rattle.theory.specs.Maps.{tail_of};
ghost use Rattle.check_sums.specs.Sums.{sums_check, Summable, Greatest};

use check_lists::limits::{any_above, least_above};
use model::{Fault, Kind};

// One pass over the costs settles a map in which no cost is above what the greatest hold leaves, so every accepted map whose holds are 0;
// only in others are the arcs taken node by node.
pub fn sums_check(
    n: u32,
    ceiling: u32,
    starts: &[u32],
    costs: &[u32],
    holds: &[u32],
) -> Result<(), Fault>
    requires { Summable n ceiling starts.now costs.now holds.now }
    ensures { result ≡ sums_check ceiling (tail_of n starts.now) costs.now holds.now }
{
    if any_above(ceiling - greatest(holds), costs) {
        least_sum(n, ceiling, starts, costs, holds)
    } else {
        Ok(())
    }
}

pub fn greatest(words: &[u32]) -> u32
    ensures { Greatest words.now result }
{
    let mut most = 0;
    for word in words {
        if *word > most {
            most = *word;
        }
    }
    most
}

// Node by node, so that the tail is known.
fn least_sum(
    n: u32,
    ceiling: u32,
    starts: &[u32],
    costs: &[u32],
    holds: &[u32],
) -> Result<(), Fault>
    requires { Summable n ceiling starts.now costs.now holds.now }
    ensures { result ≡ sums_check ceiling (tail_of n starts.now) costs.now holds.now }
{
    for v in 0..n as usize {
        let first = starts[v] as usize;
        let last = starts[v + 1] as usize;
        let rest = ceiling - holds[v];
        least_above(Kind::Cost, rest, costs, first, last)?;
    }
    Ok(())
}
