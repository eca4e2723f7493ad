// What an operation gives where it refuses nothing.

// Of the words: the place after the last one used, and how many were rejected. Both are 0 where an operation uses none.
#[derive(Clone, Copy, Debug, PartialEq, Eq)]
pub struct Used {
    pub next: usize,
    pub rejected: usize,
}

// One batch: sixteen rolls with their count, places past the count 0. The rolls stand last: in a Result what stands first lies where a
// refusal would, and the rolls there were copied twice more.
#[derive(Clone, Copy, Debug, PartialEq, Eq)]
pub struct Rolled {
    pub used: Used,
    pub count: usize,
    pub rolls: [u64; 16],
}

// The words behind rolls: the first and the last of their run.
#[derive(Clone, Copy, Debug, PartialEq, Eq)]
pub struct WordRun {
    pub first: u64,
    pub last: u64,
}
