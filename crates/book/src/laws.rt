// The laws of the book; each function's contract is a theorem.
ghost use Rattle.book.specs.Laws.{ChangesLaw, Examples, OctetsExample, OrderLaw, RecipientsLaw, StandingLaw, WordsBack, WordsForth};

// Who receives a message: exactly the members of its audience with a rule that asks for it, each once.
pub fn recipients_law()
    ensures { RecipientsLaw }
{}

// The words of a book are a sound run of octets, which carries that book; what a sound run carries is a book, and its
// words are that run. Members and rules are in the order of their words; and a small book in octets.
pub fn octets_laws()
    ensures back { WordsBack }
    ensures forth { WordsForth }
    ensures order { OrderLaw }
    ensures example { OctetsExample }
{}

// To stand exactly so is to be in the list; every change that is taken in leaves a book.
pub fn book_laws()
    ensures standing { StandingLaw }
    ensures changes { ChangesLaw }
{}

// A number given, a rule that does not match, and one copy for two rules that do.
pub fn worked_examples()
    ensures { Examples }
{}
