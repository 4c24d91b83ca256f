// What a member asks of the registrar about one of its rules.

#[derive(Clone, Copy, PartialEq, Eq, Debug)]
pub enum Request {
    Subscribe,
    Unsubscribe,
    Invite,
    Disinvite,
}
