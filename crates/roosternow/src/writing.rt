// The interface for C, continued: the function that writes a planning file (document 02, paper 5).
ghost use Rattle.theory.specs.Runs.{inputs};
ghost use Rattle.roosternow.specs.Handing.{WriteHanded};

use answer_words::write_words;
use checks::Given;
use model::Node;

// The planning file of a map: it is written to the front of the bytes, and its length is the last number.
#[unsafe(no_mangle)]
pub extern "C" fn roosternow_write(
    n: u32,
    ceiling: u32,
    source: u32,
    segments: u32,
    starts: &[u32],
    heads: &[u32],
    costs: &[u32],
    holds: &[u32],
    bytes: &mut [u8],
    numbers: &mut [u64; 3],
)
    ensures { WriteHanded (inputs n ceiling source starts.now heads.now costs.now holds.now) segments
        bytes.old bytes.new numbers.new }
{
    let given = Given {
        nodes: n,
        ceiling,
        source: Node(source),
        starts,
        heads,
        costs,
        holds,
    };
    let answer = writer::write(given, segments, bytes);
    *numbers = write_words(answer);
}
