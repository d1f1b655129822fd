//! The messages of DNS (RFC 1035): names with their pointers, queries, answers and their rows, read and written, and the
//! address of a name. Whom to ask, and when, isn't here.
#![tactic(auto)]

// records where they lie, and the rows that they show
mod entry;
// what an answer says of a name
mod found;
// what holds of the format
mod laws;
// queries and answers
mod message;
// names in a message
mod names;
// the questions of a station
mod question;
// a row as its readers see it
mod row;
// queries and answers as octets
mod writing;

pub use found::{
    Found, FoundName, TimedAddress, address, address_said, is_answer_to, name_said, pointer,
    timed_address,
};
pub use laws::written_query_is_read_again;
pub use message::{Answer, Query, read_answer, read_query};
pub use names::read_name;
pub use question::{address_question, pointer_question};
pub use row::{Row, RowValue};
pub use writing::{write_answer, write_query};
