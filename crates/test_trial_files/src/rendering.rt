// A map rendered as a planning file (document 01, "Planning file", and for the sixth field and the holds document 02, paper 2).
use test_reference_files::printing::Text;
use test_reference_map::case::Case;
use test_reference_map::map::Lists;
use test_reference_map::{map, words};

// How line 1 ends behind K: with nothing, with the sixth field that tells of holds, or with one of those that no file has.
#[derive(Clone, Copy)]
pub enum Ending {
    FiveFields,
    SixFields,
    Zero,
    Two,
    LeadingZero,
    SevenFields,
}

impl Ending {
    fn text(self) -> &'static [u8] {
        match self {
            Ending::FiveFields => b"\n",
            Ending::SixFields => b",1\n",
            Ending::Zero => b",0\n",
            Ending::Two => b",2\n",
            Ending::LeadingZero => b",01\n",
            Ending::SevenFields => b",1,1\n",
        }
    }
}

// A planning file, and where the lines of its holds begin.
#[derive(Drop)]
pub struct PlanFile {
    pub file: Text,
    pub holds: u64,
}

// Line 1: n, m, C, source and K, and its ending.
fn render_header(case: Case, ending: Ending, text: &mut Text) {
    text.numbers(&[
        u64::from(case.nodes),
        u64::from(case.heads),
        u64::from(case.ceiling),
        u64::from(case.source),
        u64::from(case.segments),
    ]);
    text.word(ending.text());
}

fn render_arcs(text: &mut Text, n: u64, lists: &Lists) {
    for v in 0..n {
        for arc in map::arcs(lists, v) {
            text.line(&[v, map::head(lists, arc), map::cost(lists, arc)]);
        }
    }
}

fn render_holds(text: &mut Text, count: u64, lists: &Lists) {
    for v in 0..count {
        text.number(map::hold(lists, v));
        text.put(b'\n');
    }
}

// How many lines of holds there are: with five fields none, otherwise up to one more than nodes.
fn hold_lines(case: Case, ending: Ending, n: u64) -> u64 {
    match ending {
        Ending::FiveFields => 0,
        _ => words::least(u64::from(case.holds), words::sum(n, 1)),
    }
}

// The file of a map of n nodes, under the numbers of a case.
pub fn render(case: Case, ending: Ending, nodes: u32, lists: &Lists) -> PlanFile {
    let n = u64::from(nodes);
    let mut file = Text::full_of(0);
    render_header(case, ending, &mut file);
    render_arcs(&mut file, n, lists);
    let holds = file.length;
    render_holds(&mut file, hold_lines(case, ending, n), lists);
    PlanFile { file, holds }
}
