// The route to a destination, from a parent table (document 01, "Routes" and "What a call returns").
#![tactic(auto)]

ghost use Rattle.std.specs.Prelude.{◌≡◌, ◌≤◌, [], ◌∷◌, length};
ghost use Rattle.checks.specs.Checks.{first_fault};
ghost use Rattle.route.specs.Routes.{table_checks, destination_check, parent_check, route_numbers_of, RoutePromised, walked_numbers};

use check_lists::{limits, starts};
use model::{Fault, Kind, Node};
use walk::WalkError;

// Numbers 1, 3, 4, 5, 6, 7 and 10. The words are read only once the sizes have passed.
#[tactic(auto, unfolding(checks::specs::Checks::first_fault, crate::specs::Routes::table_size_checks, crate::specs::Routes::table_checks))]
fn table_check(
    n: u32,
    source: Node,
    starts: &[u32],
    heads: &[u32],
    parents: usize,
) -> Result<(), Fault>
    ensures { result ≡ first_fault (table_checks n source.0 starts.now heads.now parents) }
{
    check_numbers::nodes_check(n)?;
    check_numbers::source_check(n, source)?;
    check_numbers::head_count_check(heads.len())?;
    check_numbers::start_count_check(n, starts.len())?;
    starts::starts_check(n, heads.len(), starts)?;
    limits::heads_check(n, heads)?;
    check_numbers::lent_check(1, parents, n as usize)
}

// Numbers 14 and 15.
fn destination_check(n: u32, source: Node, parents: &[u32], destination: Node) -> Result<(), Fault>
    requires { n ≤ length parents.now }
    ensures { result ≡ first_fault (destination_check n destination.0 ∷ parent_check source.0 parents.now destination.0 ∷ []) }
{
    if destination.0 >= n {
        return Err(Fault {
            kind: Kind::Destination,
            place: 0,
        });
    }
    let parent = parents[destination.0 as usize];
    let missing = (destination.0 != source.0) & (parent == 4294967295);
    if missing {
        return Err(Fault {
            kind: Kind::NoParent,
            place: 0,
        });
    }
    Ok(())
}

// Numbers 16 and 17, or the nodes written.
fn answer(walked: Result<usize, WalkError>) -> Result<usize, Fault>
    ensures { route_numbers_of result ≡ walked_numbers walked }
{
    match walked {
        Ok(nodes) => Ok(nodes),
        Err(WalkError::NoRoom) => Err(Fault {
            kind: Kind::RouteRoom,
            place: 0,
        }),
        Err(WalkError::Lost) => Err(Fault {
            kind: Kind::Parents,
            place: 0,
        }),
    }
}

// The route from the source to a destination by a parent table: its nodes, source first, are written to the list, and their number is
// given back.
pub fn route(
    n: u32,
    source: Node,
    starts: &[u32],
    heads: &[u32],
    parents: &[u32],
    destination: Node,
    route: &mut [u32],
) -> Result<usize, Fault>
    ensures { RoutePromised n source.0 starts.now heads.now parents.now destination.0 result
        route.old route.new }
{
    table_check(n, source, starts, heads, parents.len())?;
    destination_check(n, source, parents, destination)?;
    let nodes = n as usize;
    let walked = walk::walk(
        nodes,
        source,
        starts,
        heads,
        parents,
        route,
        destination,
        nodes - 1,
        0,
    );
    answer(walked)
}
