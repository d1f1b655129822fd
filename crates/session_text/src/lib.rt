//! Session documents: what a boot is tried with, as a text of lines. The reader is fed the text in pieces.
#![tactic(auto)]

// what the lines so far say
mod draft;
// what the line `end` asks
mod ending;
// pieces of an image
mod image;
// the server's addresses and offers
mod lan;
// a line by itself
mod line;
// names, their addresses and aliases
mod names;
// an image by its pieces
mod pieces;
// what a line says behind others
mod put;
// things that are said once
mod putting;
// the reader
mod reader;
// rows in order
mod rows;
// frames that are dropped, come twice or late
mod schedule;
// lines of version 2
mod second;
// what a site serves
mod served;
// what a whole document says
mod session;
// where sites stand
mod site;
// the station
mod station;
// words within a line
mod words;

pub use image::{Piece, hex_of, piece_length};
pub use lan::{Offer, Offers, Terms, servers_of};
pub use line::{Version, are_visible};
pub use names::{AddressRow, AliasRow, Names, name_of};
pub use pieces::{copy_image, image_length, image_octet};
pub use reader::SessionReader;
pub use rows::Rows;
pub use schedule::{Direction, Rule, Select};
pub use served::{Finish, Framing};
pub use session::{Lan, Session, Station};
pub use site::Site;
pub use station::{Choose, Progress};
pub use words::{number_in, split, u8_in, u16_in, u32_in, unicast_mac};
