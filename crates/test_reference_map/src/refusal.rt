// What a call is refused for (document 01, "What a call returns"): a number as the documents count them, since the programs print it, and a
// place.
#[derive(Clone, Copy, PartialEq)]
pub struct Refusal {
    pub number: u64,
    pub place: u64,
}

pub fn refuse<T>(number: u64, place: u64) -> Result<T, Refusal> {
    Err(Refusal { number, place })
}
