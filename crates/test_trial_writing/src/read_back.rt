// A written planning file read again: the numbers of its map and every word of the four lists, with some words of junk behind each.
use model::Fault;
use reader::PlanHeader;
use test_generated::lists;
use test_reference_map::case::Case;
use test_reference_map::map::Lists;
use test_reference_map::{map, words};

// How many numbers of a file that is read are not those of the map.
fn differing_numbers(answer: Result<PlanHeader, Fault>, case: Case) -> u64 {
    match answer {
        Ok(header) => {
            let given = [
                header.nodes,
                header.arcs,
                header.ceiling,
                header.source.0,
                header.segments,
            ];
            let wanted = [
                case.nodes,
                case.heads,
                case.ceiling,
                case.source,
                case.segments,
            ];
            let pairs = given.iter().zip(&wanted);
            pairs.filter(|(one, other)| one != other).count() as u64
        }
        Err(_) => 1,
    }
}

// How many words of a list are not those of the map's, or behind them not as before.
fn differing_words(list: &[u32], full: u32, of_map: &[u32], count: u32) -> u64 {
    lists::not_words(lists::part(list, 0, count.wrapping_add(8)), full, of_map)
}

type ByArc = [u32; 65544];

fn differing_lists(
    case: Case,
    lists: &Lists,
    starts: &[u32; 4112],
    heads: &ByArc,
    costs: &ByArc,
    holds: &[u32; 4104],
) -> u64 {
    let n = case.nodes;
    let m = case.heads;
    let of_map = lists::part(lists, map::STARTS, n.wrapping_add(1));
    let in_starts = differing_words(starts, lists::STARTS, of_map, n.wrapping_add(1));
    let of_map = lists::part(lists, map::HEADS, m);
    let in_heads = differing_words(heads, lists::HEADS, of_map, m);
    let of_map = lists::part(lists, map::COSTS, m);
    let in_costs = differing_words(costs, lists::COSTS, of_map, m);
    let of_map = lists::part(lists, map::HOLDS, n);
    let in_holds = differing_words(holds, lists::HOLDS, of_map, n);
    words::sum(
        words::sum(in_heads, in_costs),
        words::sum(in_starts, in_holds),
    )
}

// How many numbers and words are not those of the map.
pub fn differences(case: Case, lists: &Lists, file: &[u8]) -> u64 {
    let mut starts = [lists::STARTS; 4112];
    let mut heads = [lists::HEADS; 65544];
    let mut costs = [lists::COSTS; 65544];
    let mut holds = [lists::HOLDS; 4104];
    let answer = reader::read(
        file,
        lists::front(&mut starts, case.nodes.wrapping_add(1)),
        lists::front(&mut heads, case.heads),
        lists::front(&mut costs, case.heads),
        lists::front(&mut holds, case.nodes),
    );
    let in_lists = differing_lists(case, lists, &starts, &heads, &costs, &holds);
    words::sum(differing_numbers(answer, case), in_lists)
}
