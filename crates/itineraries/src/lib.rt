// From the bytes of a planning file to the bytes that `routes` prints: for each node that is reached, its number, its distance and the nodes
// of its route (document 01, "Routes" and "Planning file").
#![tactic(auto)]

ghost use Rattle.std.specs.Prelude.{◌≡◌, ◌+◌, ◌*◌, ◌≤◌, ◌<◌, length};
ghost use Rattle.theory.specs.Maps.{none};
ghost use Rattle.theory.specs.declared.Levels.TheVariants.{One};
ghost use Rattle.fields.specs.Writing.{Writes};
ghost use Rattle.planning.specs.Planning.{plan_lists, map_inputs, MapRunnable};
ghost use Rattle.itineraries.specs.Itineraries.{route_line, line_if_reached, route_lines, nodes_to, words_if_reached, route_fields, behind_commas, line_bytes, Few, Routable, AllRoutable, ListLends, RunListed, ItinerariesPromised};

use checks::Given;
use fields::writing::{put_byte, put_field, put_number};
use model::{Fault, Kind, Node};
use reader::PlanHeader;
use theory::Levels;

// The nodes of a route, each behind a comma.
fn put_nodes(output: &mut [u8], at: usize, nodes: &[u32]) -> usize
    requires nodes_in_bounds { at + 4 * length nodes.now + 20 ≤ length output.old }
    requires few { Few nodes.now }
    ensures { Writes at (behind_commas nodes.now) output.old output.new result }
{
    let mut next = at;
    for node in nodes {
        let number = put_byte(output, next, b',');
        next = put_number(output, number, *node as u64);
    }
    next
}

// The line of a node.
fn write_line(output: &mut [u8], at: usize, v: Node, distance: u32, nodes: &[u32]) -> usize
    requires line_bytes_in_bounds { at + line_bytes + 32 ≤ length output.old }
    requires v_bound { (v.0 < 1000) × Few nodes.now }
    ensures { Writes at (route_line v.0 distance nodes.now) output.old output.new result }
{
    let second = put_field(output, at, v.0 as u64, b',');
    let third = put_number(output, second, distance as u64);
    let next = put_nodes(output, third, nodes);
    put_byte(output, next, b'\n')
}

// The line of a node, if it is reached. A route's refusal writes nothing, though none can come.
fn write_route(
    n: u32,
    source: Node,
    starts: &[u32],
    heads: &[u32],
    parents: &[u32],
    v: Node,
    distance: u32,
    route: &mut [u32],
    output: &mut [u8],
    at: usize,
) -> usize
    requires line_bytes_in_bounds { at + line_bytes + 32 ≤ length output.old }
    requires route_len { length route.old ≡ 512 }
    requires routable { (distance ≡ none → ⊥) → Routable n source.0 starts.now heads.now parents.now v.0 }
    ensures text { Writes at
        (line_if_reached v.0 distance (nodes_to n source.0 starts.now heads.now parents.now v.0))
        output.old output.new result }
    ensures list { route.new
        ≡ words_if_reached distance (nodes_to n source.0 starts.now heads.now parents.now v.0) route.old }
{
    if distance == 4294967295 {
        return at;
    }
    match route::route(n, source, starts, heads, parents, v, route) {
        Ok(nodes) => write_line(output, at, v, distance, &route[..nodes]),
        Err(_) => at,
    }
}

// The lines of the nodes that are reached, by number.
fn write_routes(
    n: u32,
    source: Node,
    starts: &[u32],
    heads: &[u32],
    distances: &[u32],
    parents: &[u32],
    route: &mut [u32],
    output: &mut [u8],
) -> usize
    requires n_in_bounds { line_bytes * n + 32 ≤ length output.old }
    requires route_len { length route.old ≡ 512 }
    requires all_routable { AllRoutable n source.0 starts.now heads.now distances.now parents.now }
    ensures text { Writes 0
        (route_lines n distances.now (nodes_to n source.0 starts.now heads.now parents.now))
        output.old output.new result }
    ensures list { route.new
        ≡ route_fields n distances.now (nodes_to n source.0 starts.now heads.now parents.now) route.old }
{
    let mut next = 0;
    for v in 0..n {
        let distance = distances[v as usize];
        next = write_route(
            n,
            source,
            starts,
            heads,
            parents,
            Node(v),
            distance,
            route,
            output,
            next,
        );
    }
    next
}

// The one-level run of the map in the lists, and the lines of its routes. A run's refusal would be told, though none can come.
fn list_map(
    header: PlanHeader,
    starts: &[u32],
    heads: &[u32],
    costs: &[u32],
    holds: &[u32],
    distances: &mut [u32],
    parents: &mut [u32],
    roster: &mut [u32],
    work: &mut [u32],
    route: &mut [u32],
    output: &mut [u8],
) -> usize
    requires map_runnable { MapRunnable One header
        (plan_lists starts.now heads.now costs.now holds.now distances.old parents.old roster.old work.old) }
    requires route_len { (length route.old ≡ 512) × (length output.old ≡ 1056800) }
    ensures { RunListed
        (map_inputs header
        (plan_lists starts.now heads.now costs.now holds.now distances.old parents.old roster.old work.old))
        (plan_lists starts.now heads.now costs.now holds.now distances.old parents.old roster.old work.old)
        (plan_lists starts.now heads.now costs.now holds.now distances.new parents.new roster.new work.new)
        route.old route.new output.old output.new result }
{
    let n = header.nodes as usize;
    let m = header.arcs as usize;
    let given = Given {
        nodes: header.nodes,
        ceiling: header.ceiling,
        source: header.source,
        starts: &starts[..n + 1],
        heads: &heads[..m],
        costs: &costs[..m],
        holds: &holds[..n],
    };
    let run = runs::run(Levels::One, given, distances, parents, roster, work);
    match run {
        Ok(_) => write_routes(
            header.nodes,
            header.source,
            given.starts,
            given.heads,
            distances,
            parents,
            route,
            output,
        ),
        Err(refused) => report::write_refusal(output, refused),
    }
}

// The lists as slices.
fn answer_in(
    bytes: &[u8],
    starts: &mut [u32],
    heads: &mut [u32],
    costs: &mut [u32],
    holds: &mut [u32],
    distances: &mut [u32],
    parents: &mut [u32],
    roster: &mut [u32],
    work: &mut [u32],
    route: &mut [u32],
    output: &mut [u8],
) -> usize
    requires { ListLends (plan_lists starts.old heads.old costs.old holds.old distances.old parents.old roster.old work.old) route.old output.old }
    ensures { ItinerariesPromised bytes.now
        (plan_lists starts.old heads.old costs.old holds.old distances.old parents.old roster.old work.old)
        (plan_lists starts.new heads.new costs.new holds.new distances.new parents.new roster.new work.new)
        route.old route.new output.old output.new result }
{
    if bytes.len() > 65536 {
        let long = Fault {
            kind: Kind::InputSize,
            place: 0,
        };
        return report::write_refusal(output, long);
    }
    match reader::read(bytes, starts, heads, costs, holds) {
        Err(fault) => report::write_refusal(output, fault),
        Ok(header) => list_map(
            header, starts, heads, costs, holds, distances, parents, roster, work, route, output,
        ),
    }
}

// What `routes` prints for the bytes of a planning file: it is written to the front of the output, and its length is given back.
pub fn answer(
    bytes: &[u8],
    starts: &mut [u32; 513],
    heads: &mut [u32; 2048],
    costs: &mut [u32; 2048],
    holds: &mut [u32; 512],
    distances: &mut [u32; 512],
    parents: &mut [u32; 512],
    roster: &mut [u32; 512],
    work: &mut [u32; 2432],
    route: &mut [u32; 512],
    output: &mut [u8; 1056800],
) -> usize
    ensures { ItinerariesPromised bytes.now
        (plan_lists starts.old heads.old costs.old holds.old distances.old parents.old roster.old work.old)
        (plan_lists starts.new heads.new costs.new holds.new distances.new parents.new roster.new work.new)
        route.old route.new output.old output.new result }
{
    answer_in(
        bytes, starts, heads, costs, holds, distances, parents, roster, work, route, output,
    )
}
