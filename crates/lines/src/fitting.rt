// The rule by which a new frame fits beside those that wait at its port.
ghost use Rattle.std.specs.Prelude.{◌≡◌, ℕ, ◌≤◌, true, List, map, length};
ghost use Rattle.line.specs.Lines.{Lawful, Rule, Sized, longest_frame};
ghost use Rattle.lines.specs.Queues.{frames};
ghost use Rattle.lines.specs.Rules.{packed};

use crate::queue::Queue;

pub(crate) trait Fitting {
    ghost rule: { Rule };

    // Whether a new frame of this length fits beside those of the queue.
    fn fits(queue: &Queue, new: usize) -> bool
        requires { new ≤ longest_frame }
        ensures { result ≡ rule (map length (frames queue.now)) new };

    ghost lawful: { Lawful rule };

    // What fits has room in the memory of a queue.
    ghost within: { (fs : List (List ℕ)) (n : ℕ) → Sized fs → n ≤ longest_frame → rule (map length fs) n ≡ true → packed (map length fs) n ≡ true };
}
