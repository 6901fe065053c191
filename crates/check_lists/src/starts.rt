// Number 6: starts that rise from 0 to m (document 01, "What a call returns"). One pass gathers whether a word falls; the
// index of a fault is looked for only when there is one.
ghost use Rattle.std.specs.Prelude.{◌≡◌, false, ◌+◌, ◌<◌, length};
ghost use Rattle.check_lists.specs.Lists.{NoneFalls, start_fails, starts_check};

use model::{Fault, Kind};

pub fn starts_check(n: u32, arcs: usize, starts: &[u32]) -> Result<(), Fault>
    requires { length starts.now ≡ n + 1 }
    ensures { result ≡ starts_check n arcs starts.now }
{
    let last = n as usize;
    let ends = (starts[0] != 0) | (starts[last] as usize != arcs);
    if ends | any_falls(starts) {
        least_start(last, arcs, starts)
    } else {
        Ok(())
    }
}

fn any_falls(words: &[u32]) -> bool
    ensures { result ≡ false → NoneFalls words.now }
{
    let mut any = false;
    for i in 1..words.len() {
        any = any | (words[i] < words[i - 1]);
    }
    any
}

fn least_start(n: usize, arcs: usize, starts: &[u32]) -> Result<(), Fault>
    requires { length starts.now ≡ n + 1 }
    ensures { result ≡ starts_check n arcs starts.now }
{
    for i in 0..starts.len() {
        if start_fails(n, arcs, starts, i) {
            return Err(Fault {
                kind: Kind::Starts,
                place: i,
            });
        }
    }
    Ok(())
}

fn start_fails(n: usize, arcs: usize, starts: &[u32], i: usize) -> bool
    requires { i < length starts.now }
    ensures { result ≡ start_fails n arcs starts.now i }
{
    let start = starts[i] as usize;
    let beyond = (start > arcs) | ((i == n) & (start != arcs));
    if i == 0 {
        beyond | (start != 0)
    } else {
        beyond | (starts[i] < starts[i - 1])
    }
}
