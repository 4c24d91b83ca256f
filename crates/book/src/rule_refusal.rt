// Why a rule did not enter the book.
ghost use Rattle.std.specs.Prelude.{◌≡◌};
ghost use Rattle.book.specs.Asked.{refusal};

use table::InsertError;

#[derive(Clone, Copy, PartialEq, Eq, Debug)]
pub enum RuleRefusal {
    // The rule may not stand, or no member has its number.
    Invalid,
    // It stood already.
    Standing,
    // The book has as many rules as it can hold.
    Full,
}

impl From<InsertError> for RuleRefusal {
    ghost from_gives = { λ error r. r ≡ refusal error };

    fn from(error: InsertError) -> RuleRefusal {
        match error {
            InsertError::Standing => RuleRefusal::Standing,
            InsertError::Full => RuleRefusal::Full,
        }
    }
}
