// What is known of a store of editions while it is walked, an entry after the other.

// An edition's entry in a store: its size in bytes, and the edition's number.
#[derive(Clone, Copy)]
pub struct Entry {
    pub size: usize,
    pub number: u16,
}

// What is known of the editions passed: where the last of them ends, the least number that may follow, how many there are, and where the one that is
// named starts, if it is among them.
#[derive(Clone, Copy)]
pub struct Walked {
    pub end: usize,
    pub least: u32,
    pub count: usize,
    pub start: Option<usize>,
}
