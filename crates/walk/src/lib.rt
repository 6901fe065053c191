// The walk from a node back to the source by a parent table (document 01, "Routes").
#![tactic(auto)]

ghost use Rattle.std.specs.Prelude.{◌≡◌, [], ◌∷◌, length};
ghost use Rattle.theory.specs.Maps.{LeavesBy};
ghost use Rattle.walk.specs.Walk.{leads_to, Nodes, walk_back, Tailed, Walks, walked_of, walked_words};

use model::{Arc, Node};

// Why no node of a walk back to the source is written.
#[derive(Clone, Copy, Debug, PartialEq, Eq)]
pub enum WalkError {
    Lost,
    NoRoom,
}

// The node that an arc leaves, found by halving the nodes of which it may be one.
fn tail_of(n: usize, starts: &[u32], arc: Arc) -> Node
    requires { Tailed n starts.now arc.0 }
    ensures { LeavesBy starts.now arc.0 result.0 }
{
    let mut low = 0;
    let mut high = n;
    while low + 1 < high {
        let middle = low + (high - low) / 2;
        if starts[middle] <= arc.0 {
            low = middle;
        } else {
            high = middle;
        }
    }
    Node(low as u32)
}

// Whether an arc is one of the map's and arrives at node v.
fn leads_to(heads: &[u32], arc: Arc, v: Node) -> bool
    ensures { result ≡ leads_to heads.now arc.0 v.0 }
{
    heads.get(arc.0 as usize) == Some(&v.0)
}

// The walk has come to the source, with `behind` nodes to follow it: now the number of nodes is known, and the first word is written
// only if there is room for all.
fn arrive(route: &mut [u32], source: Node, behind: usize) -> Result<usize, WalkError>
    ensures answer { result ≡ walked_of (length route.old) behind (Nodes (source.0 ∷ [])) }
    ensures list { route.new ≡ walked_words behind (Nodes (source.0 ∷ [])) route.old }
{
    if behind < route.len() {
        route[0] = source.0;
        return Ok(1);
    }
    Err(WalkError::NoRoom)
}

// What a walk reads: a map without costs and holds, its source, and a parent word for each node. The walk calls itself once for each node,
// and lends this on, so that a call takes one word for all of it and not eight.
#[derive(Clone, Copy)]
struct Lists<'a> {
    n: usize,
    source: Node,
    starts: &'a [u32],
    heads: &'a [u32],
    parents: &'a [u32],
}

// The walk from node v back to the source over the lists: each call writes its own node once the calls before it have come back.
fn walk_on<'a>(
    lists: &Lists<'a>,
    route: &mut [u32],
    v: Node,
    allowed: usize,
    behind: usize,
) -> Result<usize, WalkError>
    requires { Walks lists.now.n lists.now.source.0 lists.now.starts.now lists.now.heads.now lists.now.parents.now v.0 allowed behind }
    ensures answer { result ≡ walked_of (length route.old) behind
        (walk_back lists.now.n lists.now.starts.now lists.now.heads.now lists.now.parents.now lists.now.source.0 allowed v.0) }
    ensures list { route.new ≡ walked_words behind
        (walk_back lists.now.n lists.now.starts.now lists.now.heads.now lists.now.parents.now lists.now.source.0 allowed v.0) route.old }
{
    if v.0 == lists.source.0 {
        return arrive(route, lists.source, behind);
    }
    if allowed == 0 {
        return Err(WalkError::Lost);
    }
    let parent = Arc(lists.parents[v.0 as usize]);
    if !leads_to(lists.heads, parent, v) {
        return Err(WalkError::Lost);
    }
    let tail = tail_of(lists.n, lists.starts, parent);
    let nodes = walk_on(lists, route, tail, allowed - 1, behind + 1)?;
    route[nodes] = v.0;
    Ok(nodes + 1)
}

// The walk from node v back to the source: `allowed` arcs may still be taken, and `behind` nodes follow v. The nodes are written on
// return, from the source on, and their number is given back.
pub fn walk(
    n: usize,
    source: Node,
    starts: &[u32],
    heads: &[u32],
    parents: &[u32],
    route: &mut [u32],
    v: Node,
    allowed: usize,
    behind: usize,
) -> Result<usize, WalkError>
    requires { Walks n source.0 starts.now heads.now parents.now v.0 allowed behind }
    ensures answer { result ≡ walked_of (length route.old) behind
        (walk_back n starts.now heads.now parents.now source.0 allowed v.0) }
    ensures list { route.new ≡ walked_words behind
        (walk_back n starts.now heads.now parents.now source.0 allowed v.0) route.old }
{
    let lists = Lists {
        n,
        source,
        starts,
        heads,
        parents,
    };
    walk_on(&lists, route, v, allowed, behind)
}
