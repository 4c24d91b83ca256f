// What a record has that a word carries.
ghost use Rattle.std.specs.Prelude.{◌≡◌, ℕ, Bool, if◌then◌else◌, Some, None};
ghost use Rattle.words.specs.Laws.{RoundTrip};
ghost use Rattle.words.specs.Records.{read_if};

use crate::fault::WordFault;

// A record that a word of 32 bits carries: it has a word, and which words carry one, and what they say.
pub trait InWord: Sized {
    ghost valid: { Self → Type 0 };

    ghost word: { Self → ℕ };

    ghost carries: { ℕ → Bool };

    ghost within: { ℕ → Self };

    fn to_word(&self) -> u32
        ensures { result ≡ word self.now };

    // The record that the word carries.
    fn of_word(w: u32) -> Option<Self>
        ensures { result ≡ (if carries w then Some (within w) else None) };

    // The record that the word carries; `at` is the word's place, for the fault.
    final fn from_word(w: u32, at: usize) -> Result<Self, WordFault>
        ensures { result ≡ read_if (carries w) (within w) at }
    {
        Self::of_word(w).ok_or(WordFault { place: at })
    }

    // A record that may stand reads back from its word, and a word that reads is the word of its record.
    ghost trip: { RoundTrip valid word (λ w at. read_if (carries w) (within w) at) };
}
