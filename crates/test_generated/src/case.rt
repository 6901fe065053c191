// The case of a generated map.
use crate::maps::Map;
use test_reference_map::case::Case;

// A run on a map of so many arcs. Each list that it fills has `spare` words more than it needs.
pub fn of_map(map: Map, arcs: u32, spare: u32) -> Case {
    let nodes = map.nodes % 8192;
    let more = spare % 8192;
    Case {
        nodes,
        ceiling: map.ceiling,
        source: map.source,
        segments: map.segments,
        starts: nodes + 1,
        heads: arcs,
        costs: arcs,
        holds: nodes,
        distances: nodes + more,
        parents: nodes + more,
        roster: nodes + more,
        work: 4 * nodes + 384 + more,
    }
}
