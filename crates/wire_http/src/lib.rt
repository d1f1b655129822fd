//! HTTP responses as a client reads them.
#![tactic(auto)]

// the body behind a final head, read in pieces
mod bodies;
// the line in front of a chunk
mod chunk_line;
// what the fields of a head say
mod fields;
// the head of a response
mod head;
// whom a URI names
mod hosts;
// what holds of the definitions
mod laws;
// the lines of a head that isn't whole yet
mod lines;
// the numbers of Content-Length
mod lengths;
// the request of a load
mod request;
// pieces of a body
mod runs;
// what is kept of a body between two octets
mod stage;
// texts without case, and without the blanks around them
mod text;
// the trailer of a body in chunks
mod trailer;
// why a text is no URI of a load
mod uri_fault;
// URIs of loads
mod uris;

pub use bodies::{Body, BodyState, Fed};
pub use head::{Framing, Head, HeadInfo, MOST_HEAD, read_head};
pub use hosts::Host;
pub use laws::{
    bad_is_one, body_so_far_is_one, whole_front_is_whole, whole_is_not_bad, whole_is_one,
    whole_is_so_far, whole_stays,
};
pub use request::request_text;
pub use uri_fault::UriFault;
pub use uris::{Uri, read_location, read_uri};
