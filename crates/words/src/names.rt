// The names of kinds in plain words.
ghost use Rattle.std.specs.Prelude.{Some};
ghost use Rattle.words.specs.Names.{message_name, rule_name};

use crate::message_kind::MessageKind;
use crate::rule_kind::RuleKind;
use std::fmt;

impl fmt::Display for MessageKind {
    ghost output = { λ k. Some (message_name k) };

    fn fmt<W: fmt::Write>(&self, f: &mut fmt::Formatter<W>) -> fmt::Result {
        f.write_str(match self {
            MessageKind::Published => "published",
            MessageKind::Announced => "announced",
            MessageKind::Private => "private",
        })
    }
}

impl fmt::Display for RuleKind {
    ghost output = { λ k. Some (rule_name k) };

    fn fmt<W: fmt::Write>(&self, f: &mut fmt::Formatter<W>) -> fmt::Result {
        f.write_str(match self {
            RuleKind::Subscription => "subscription",
            RuleKind::Invitation => "invitation",
        })
    }
}
