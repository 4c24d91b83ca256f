// The laws of this layer; each function's contract is a theorem.
ghost use Rattle.words.specs.Laws.{ApplicantTrip, BookIsSound, HeadTrip, MemberTrip, ModuleTrip, ReasonTrip, RuleTrip, SoundIsBook, WordOrder};

// Every record reads back from its word, and a word that reads is the word of its record; words are in the order of their fields.
pub fn word_laws()
    ensures members { MemberTrip }
    ensures applicants { ApplicantTrip }
    ensures rules { RuleTrip }
    ensures reasons { ReasonTrip }
    ensures modules { ModuleTrip }
    ensures heads { HeadTrip }
    ensures order { WordOrder }
{}

// A run in which no word is wrong is a book, and in a book no word is wrong.
pub fn book_laws()
    ensures sound { SoundIsBook }
    ensures book { BookIsSound }
{}
