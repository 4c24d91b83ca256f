// The next number to give.
ghost use Rattle.std.specs.Prelude.{◌≡◌};
ghost use Rattle.book.specs.Lists.{members_of};
ghost use Rattle.book.specs.Numbers.{First, after};

use crate::book::Book;

const LAST_NUMBER: u8 = 255;

fn next(number: u8) -> u8
    ensures { result ≡ after number 0 }
{
    if number == LAST_NUMBER { 1 } else { number + 1 }
}

impl Book {
    // The first number after `last`, going from 255 round to 1, that no member holds.
    pub fn free_number(&self, last: u8) -> u8
        ensures { First (members_of self.now) last result }
    {
        let mut number = next(last);
        // A loop that breaks with the number: through an iterator it would answer an Option, though some number is always
        // free.
        loop {
            if !self.members.contains(&number) {
                break number;
            }
            number = next(number);
        }
    }
}
