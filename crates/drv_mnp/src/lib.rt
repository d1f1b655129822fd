//! MNP of UEFI: children that hear and send whole Ethernet frames. The device that has the link, and what the frames
//! carry, aren't here.
#![tactic(auto)]

// the driver and its calls
mod driver;
// the making of a frame
mod framing;
// which children hear a frame
mod hearing;
// what holds of what a frame does
mod laws;
// configurations, works and messages
mod work;

pub use driver::DrvMnp;
pub use framing::MOST_PAYLOAD;
pub use laws::a_frame_ends_receives_of_its_hearers_alone;
pub use work::{Framed, Mnp, MnpCfg, MnpTx, MnpWork, NOBODY};
