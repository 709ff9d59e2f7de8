/// In which form a stream is written.
#[derive(Clone, Copy, Debug, PartialEq, Eq)]
pub enum Form {
    /// The frames alone, as bytes.
    Raw,
    /// The head of the signed request as lines, and then a line of hexadecimal for each frame.
    HexLines,
}
