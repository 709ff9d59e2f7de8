/// How far a body has come.
#[derive(Clone, Copy, Debug, PartialEq, Eq)]
pub(crate) enum Phase {
    /// Data comes.
    Data,
    /// The data has ended with the first trailers, and the source goes on.
    Trailers,
    /// The source has ended.
    Ended,
    /// All of the text was made, or there was a fault.
    Closed,
}
