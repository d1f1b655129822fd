//! What the texts of this project are made of, each spelled once and both ways: numbers, addresses, octets in
//! hexadecimal digits, names, words and lines. What the lines of a text mean isn't here.
#![tactic(auto)]

// Ethernet and IPv4 addresses
mod addresses;
// octets as hexadecimal digits
mod hex;
// texts of lines
mod lines;
// names of stations
mod names;
// decimal numbers
mod numbers;
// the words of a line
mod words;

pub use addresses::{Dotted, ip, mac, put_mac};
pub use hex::{hex_octets, is_hex_text, put_hex};
pub use lines::{LINE_MAX, Said, TextFault, read_end, read_piece};
pub use names::is_name;
pub use numbers::number;
pub use words::{front, place_of, rest};

#[cfg(test)]
mod tests;
