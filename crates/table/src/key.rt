// Keys and their order.
ghost use Rattle.std.specs.Prelude.{◌≡◌, Bool, true, nat_lt};
ghost use Rattle.std.specs.Ordering.{MatchOrdering};
ghost use Rattle.table.specs.Ordered.{Order};
ghost use Rattle.std.proofs.Common.{rules};

use std::cmp::Ordering;

// A key by its strict order: of two keys exactly one of less, equal, greater holds, and less is transitive.
// `Ord` says less: its keys may tie without being the same value. So `compare` promises this where `cmp` can't, though
// each key computes it by `cmp`.
pub trait Key: Sized {
    ghost less: { Self → Self → Bool };

    fn compare(&self, other: &Self) -> Ordering
        ensures { MatchOrdering result (less self.now other.now ≡ true) (self.now ≡ other.now) (less other.now self.now ≡ true) };

    ghost order: { Order less };
}

impl Key for u8 {
    ghost less = { nat_lt };

    ghost order = { Prim.search rules };

    fn compare(&self, other: &u8) -> Ordering {
        self.cmp(other)
    }
}
