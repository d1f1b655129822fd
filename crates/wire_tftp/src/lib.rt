//! The packets of TFTP (RFC 1350) with the options blksize and tsize (RFC 2347 to 2349), read and written. Which packet
//! comes when is a transfer's affair.
#![tactic(auto)]

// which option acknowledgment answers what was asked for
mod fitting;
// what holds of the format
mod laws;
// options of requests and acknowledgments
mod options;
// the six packets
mod packet;
// octets ended by a zero
mod texts;

pub use fitting::{LEAST_BLOCK_SIZE, fits_ask};
pub use laws::written_packet_is_read_again;
pub use options::Opts;
pub use packet::{Ask, Packet, read_packet, write_packet};
pub use texts::is_text;
