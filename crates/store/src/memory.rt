// The memory of a store.
use dag::row::Row;

// The node table and its work tables, which whoever opens a store hands over and gets back: marks, and two tables of numbers.
// They are four tables and not one of larger records, since each is lent by itself.
#[derive(Drop)]
pub struct Memory {
    pub nodes: Vec<Row>,
    pub marks: Vec<u8>,
    pub order: Vec<u16>,
    pub numbers: Vec<u16>,
}
