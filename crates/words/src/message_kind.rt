// The three kinds of message.

#[derive(Clone, Copy, PartialEq, Eq, Debug)]
pub enum MessageKind {
    // To every member that subscribes.
    Published = 8,
    // To every member of a domain that invites.
    Announced = 9,
    // To one member that invites.
    Private = 10,
}
