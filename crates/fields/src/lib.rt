// Decimal fields and lines of them, in bytes (document 01, "Planning file").
#![tactic(auto)]

pub mod reading;
pub mod writing;

// A field's value, and the number of bytes that it takes with the byte that ends it.
#[derive(Clone, Copy)]
pub struct Field {
    pub value: u32,
    pub taken: usize,
}
