// Tables are filled with what the words of a run carry.
ghost use Rattle.std.specs.Prelude.{◌≡◌, ◌≤◌, true, ◌&&◌, [], ◌∷◌, ◌++◌};
ghost use Rattle.book.specs.Octets.{carried, put_behind};
ghost use Rattle.table.specs.InOrder.{in_order};
ghost use Rattle.table.specs.Ordered.{ascending};
ghost use Rattle.words.specs.Books.{count_below, word_of, words_in, words_of};

use table::{Record, Sorted};
use words::{BookRun, InWord};

// Puts what the word carries behind all that stands, if it is above that and there is room.
fn put<R: Record + InWord + Drop, const LIMIT: usize>(table: &mut Sorted<R, LIMIT>, w: u32)
    ensures { in_order table.new ≡ put_behind LIMIT (R.InWord.carries w && ascending R.Key.Key.less R.keyed (in_order table.old ++ (R.InWord.within w ∷ []))) (R.InWord.within w) (in_order table.old) }
{
    if let Some(x) = R::of_word(w) {
        // What is refused is left out; of what `fill` is given nothing is.
        let _ = table.put_last(x);
    }
}

// What the words of the run carry takes the place of what stood.
pub(crate) fn fill<R: Record + InWord + Drop, const LIMIT: usize>(
    table: &mut Sorted<R, LIMIT>,
    run: &BookRun<'_>,
)
    requires room { count_below (λ j. R.InWord.carries (word_of run.now.octets.now j)) (words_in run.now.octets.now) ≤ LIMIT }
    requires rising { ascending R.Key.Key.less R.keyed (carried R.InWord.carries R.InWord.within (words_of run.now.octets.now)) ≡ true }
    ensures { in_order table.new ≡ carried R.InWord.carries R.InWord.within (words_of run.now.octets.now) }
{
    table.clear();
    for w in run.iter() {
        put(table, w);
    }
}
