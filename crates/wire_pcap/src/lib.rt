//! Classic pcap captures of Ethernet frames (the file format of libpcap, "pcap-savefile"), in either byte order, with
//! times in microseconds or nanoseconds.
#![tactic(auto)]

// the moments of records
mod clock;
// why a capture can't be read
mod fault;
// byte orders and resolutions
mod form;
// the record at the front of octets
mod head;
// a capture's header
mod header;
// what holds of the definitions
mod laws;
// the reader that is fed a capture
mod reader;
// whole records, one after the other
mod records;
// reading on behind what was read
mod stage;
// what is written
mod writer;

pub use fault::CapFault;
pub use laws::{bad_places_stay, records_are_one, ticks_rise, written_records_are_a_capture};
pub use reader::PcapReader;
pub use writer::{write_header, write_record};
