//! What can be wrong with a response, as loads and reports name it. What makes it wrong isn't here.

/// The part at which a stream is no response.
#[derive(Clone, Copy, PartialEq, Eq, Debug)]
pub enum Part {
    /// The heads.
    Head,
    /// The stated length.
    Length,
    /// The chunks.
    Chunk,
    /// The trailer.
    Trailer,
}

/// The field that names a coding which isn't undone.
#[derive(Clone, Copy, PartialEq, Eq, Debug)]
pub enum CodingField {
    /// Content-Encoding.
    Content,
    /// Transfer-Encoding.
    Transfer,
}
