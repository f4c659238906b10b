/// What a message to the host is.
#[derive(Clone, Copy, PartialEq, Eq, Debug)]
pub enum CallKind {
    /// A request for an authorisation, type 0100; its reply has type 0110.
    Request,
    /// A presentment, type 0220; its reply has type 0230.
    Presentment,
    /// A reversal, type 0400; its reply has type 0410.
    Reversal,
}
