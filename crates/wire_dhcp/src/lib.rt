//! The messages of DHCP (RFC 2131, with the options of RFC 2132), read and written, and what one message says to a station.
//! Which message comes when is a driver's affair.
#![tactic(auto)]

// which offer a station takes
mod choosing;
// the messages of a server
mod granting;
// what holds of the format
mod laws;
// leases
mod lease;
// messages: fixed fields and options
mod message;
// options one behind the other
mod options;
// what a message says to a station
mod says;
// the messages that a station sends
mod sending;
// messages and options, written
mod writing;

pub use choosing::{Choice, ChooseRule, choice_of};
pub use granting::{Grant, write_ack, write_offer};
pub use laws::{
    answers_of_a_server_are_short, messages_of_a_station_have_their_lengths,
    written_message_is_read_again,
};
pub use lease::{Lease, read_lease};
pub use message::{Dhcp, DhcpFixed, read_dhcp};
pub use options::DhcpOption;
pub use says::{Offer, Reply, read_reply};
pub use sending::{write_discover, write_release, write_renewal, write_request};
pub use writing::write_dhcp;
