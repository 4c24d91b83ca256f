// The names of types in plain words.
ghost use Rattle.std.specs.Prelude.{Some};
ghost use Rattle.wire.specs.Names.{type_name};

use crate::meta_type::MetaType;
use std::fmt;

impl fmt::Display for MetaType {
    ghost output = { λ k. Some (type_name k) };

    fn fmt<W: fmt::Write>(&self, f: &mut fmt::Formatter<W>) -> fmt::Result {
        f.write_str(match self {
            MetaType::Rejection => "rejection",
            MetaType::YouAreDead => "you_are_dead",
            MetaType::Invite => "invite",
            MetaType::Disinvite => "disinvite",
            MetaType::ModuleRegistration => "module_registration",
            MetaType::YouAreIn => "you_are_in",
            MetaType::IAmStarting => "I_am_starting",
            MetaType::Subscribe => "subscribe",
            MetaType::Unsubscribe => "unsubscribe",
            MetaType::IAmStopping => "I_am_stopping",
            MetaType::CellStatus => "cell_status",
        })
    }
}
