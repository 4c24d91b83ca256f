// What a module end is.

#[derive(Clone, Copy, PartialEq, Eq, Debug)]
pub enum Standing {
    Out,
    // It asked for a number in this role, by this query number.
    Asked { role: u8, query: u32 },
    // It is a member.
    In { number: u8, role: u8 },
}
