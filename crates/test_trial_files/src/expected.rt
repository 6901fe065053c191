// What `plan` is expected to print for a planning file, and to leave in its lists.
use test_reference_counts::recount;
use test_reference_files::planfile;
use test_reference_files::printing::Text;
use test_reference_map::case::Height;
use test_reference_map::map::Lists;
use test_reference_map::nodes::Table;
use test_reference_map::refusal::Refusal;
use test_reference_search::dijkstra;

// n, m and r of a file that is taken.
#[derive(Clone, Copy)]
pub struct Taken {
    pub nodes: u64,
    pub arcs: u64,
    pub reached: u64,
}

// The text for a file's bytes, and what it tells. The lists are full of 0 before.
pub fn text(
    bytes: &[u8],
    lists: &mut Lists,
    table: &mut Table,
    output: &mut Text,
) -> Result<Taken, Refusal> {
    let header = match planfile::read(bytes, lists) {
        Ok(header) => header,
        Err(found) => {
            planfile::print_refusal(output, found);
            return Err(found);
        }
    };
    let case = planfile::case_of(header);
    let reached = dijkstra::search(header.nodes, header.source, lists, table);
    let one = recount::run(Height::One, case, lists, table);
    let two = recount::run(Height::Two, case, lists, table);
    planfile::print_answer(output, header, one, two, table);
    Ok(Taken {
        nodes: header.nodes,
        arcs: header.arcs,
        reached,
    })
}
