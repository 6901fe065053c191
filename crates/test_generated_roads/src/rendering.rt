// Road files rendered, with comments before some of the lines and behind them all.
use crate::roads::{Field, Order, Road};
use test_generated::{maps, random};
use test_reference_files::printing::Text;

// What of a file is written, and where the generator has got to.
#[derive(Drop)]
struct Pen {
    text: Text,
    word: u64,
}

// Any byte of a comment: a line feed counts as the letter c.
fn comment_byte(word: u64) -> u8 {
    match (random::below(word, 256) % 256) as u8 {
        b'\n' => b'c',
        byte => byte,
    }
}

// Falling tails that go round, one tail for all arcs, rising tails that go round, or any.
fn tail(road: Road, i: u32, word: u64) -> u32 {
    let n = road.nodes;
    let node = match road.order {
        Order::Falling => maps::minus(maps::minus(n, 1), maps::rest(i, n)),
        Order::One => random::below(road.seed, n),
        Order::Rising => maps::rest(i, n),
        Order::Any => random::below(word, n),
    };
    maps::plus(node, 1)
}

// One cost in eight is the ceiling, the others are anything up to it.
fn cost(road: Road, word: u64) -> u32 {
    if random::below(word, 8) == 0 {
        return road.ceiling;
    }
    random::below(random::next(word), maps::plus(road.ceiling, 1))
}

// A number of arc i, or what it is put to.
fn at_edge(road: Road, i: u32, field: Field, kept: u32) -> u32 {
    match road.edge {
        Some(edge) if edge.arc == i && edge.field == field => edge.number,
        _ => kept,
    }
}

impl Pen {
    fn draw(&mut self) -> u64 {
        self.word = random::next(self.word);
        self.word
    }

    // A comment of up to eleven bytes behind its letter.
    fn comment(&mut self) {
        let count = random::below(self.draw(), 12);
        self.text.put(b'c');
        for _ in 0..count {
            let byte = comment_byte(self.draw());
            self.text.put(byte);
        }
        self.text.put(b'\n');
    }

    // One line in six has a comment before it.
    fn any_comment(&mut self) {
        if random::below(self.draw(), 6) == 0 {
            self.comment();
        }
    }

    fn number(&mut self, number: u32, ended_by: u8) {
        self.text.number(u64::from(number));
        self.text.put(ended_by);
    }

    fn problem(&mut self, road: Road) {
        self.text.word(b"p sp ");
        self.number(road.told_nodes, b' ');
        self.number(road.told_arcs, b'\n');
    }

    fn arc(&mut self, road: Road, i: u32) {
        let first = self.draw();
        let second = self.draw();
        let third = self.draw();
        let head = maps::plus(random::below(second, road.nodes), 1);
        self.text.word(b"a ");
        self.number(at_edge(road, i, Field::Tail, tail(road, i, first)), b' ');
        self.number(at_edge(road, i, Field::Head, head), b' ');
        self.number(at_edge(road, i, Field::Cost, cost(road, third)), b'\n');
    }

    // What stands before arc i, and the arc.
    fn turn(&mut self, road: Road, i: u32) {
        self.any_comment();
        if road.problem == Some(i) {
            self.problem(road);
        }
        if road.again == Some(i) {
            self.problem(road);
        }
        if i < road.arcs {
            self.arc(road, i);
        }
    }
}

// The file.
pub fn render(road: Road) -> Text {
    let mut pen = Pen {
        text: Text::full_of(0),
        word: road.seed,
    };
    for i in 0..=road.arcs {
        pen.turn(road, i);
    }
    pen.text
}
