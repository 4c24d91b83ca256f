// How many members and rules a book has, or has before a word of it.

pub const MOST_MEMBERS: usize = 15;

pub const MOST_RULES: usize = 200;

#[derive(Clone, Copy, PartialEq, Eq, Debug, Default)]
pub struct Tally {
    pub members: usize,
    pub rules: usize,
}
