//! Frames and captures for the tables of rows, written octet by octet and without the crates that read them. What a row says
//! isn't here.
#![tactic(auto)]

// captures, record by record
mod captures;
// segments, packets and frames
mod frames;
// the Internet checksum
mod sums;

pub use captures::{Form, Writer, begun, put_head, put_record};
pub use frames::{
    Segment, Station, Sums, frame_octets, joined, packet_octets, put_header_sum, put_octet,
    segment_octets,
};
