// The two kinds of rule.

// The number of each is the kind of the word that carries such a rule.
#[derive(Clone, Copy, PartialEq, Eq, PartialOrd, Ord, Debug)]
pub enum RuleKind {
    // Published messages are wanted.
    Subscription = 2,
    // Announced and private messages are wanted.
    Invitation = 3,
}
