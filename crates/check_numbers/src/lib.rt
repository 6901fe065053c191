// Numbers 1 to 5, 9 and 10, which look at no word of a list (document 01, "What a call returns").
#![tactic(auto)]

ghost use Rattle.std.specs.Prelude.{◌≡◌};
ghost use Rattle.check_numbers.specs.Numbers.{fault_if, nodes_check, ceiling_check, source_check, head_count_check, arc_count_check, start_count_check, segments_check, lent_check};

use model::{Fault, Kind, Node};

pub fn nodes_check(n: u32) -> Result<(), Fault>
    ensures { result ≡ nodes_check n }
{
    fault_if(Kind::NodeCount, 0, (n < 1) | (n > 4096))
}

pub fn ceiling_check(ceiling: u32) -> Result<(), Fault>
    ensures { result ≡ ceiling_check ceiling }
{
    fault_if(Kind::Ceiling, 0, ceiling > 1048575)
}

pub fn source_check(n: u32, source: Node) -> Result<(), Fault>
    ensures { result ≡ source_check n source.0 }
{
    fault_if(Kind::Source, 0, source.0 >= n)
}

// For a call that is lent heads and no costs.
pub fn head_count_check(heads: usize) -> Result<(), Fault>
    ensures { result ≡ head_count_check heads }
{
    fault_if(Kind::ArcCount, 0, heads > 65536)
}

pub fn arc_count_check(heads: usize, costs: usize) -> Result<(), Fault>
    ensures { result ≡ arc_count_check heads costs }
{
    fault_if(Kind::ArcCount, 0, (heads > 65536) | (heads != costs))
}

pub fn start_count_check(n: u32, starts: usize) -> Result<(), Fault>
    ensures { result ≡ start_count_check n starts }
{
    fault_if(Kind::StartCount, 0, starts != n as usize + 1)
}

pub fn segments_check(segments: u32) -> Result<(), Fault>
    ensures { result ≡ segments_check segments }
{
    fault_if(Kind::SegmentCount, 0, (segments < 2) | (segments > 64))
}

pub fn lent_check(place: usize, words: usize, needed: usize) -> Result<(), Fault>
    ensures { result ≡ lent_check place words needed }
{
    fault_if(Kind::LentList, place, words < needed)
}

fn fault_if(kind: Kind, place: usize, fails: bool) -> Result<(), Fault>
    ensures { result ≡ fault_if kind place fails }
{
    if fails {
        Err(Fault { kind, place })
    } else {
        Ok(())
    }
}
