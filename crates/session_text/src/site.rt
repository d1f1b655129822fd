//! A site of the server: where it stands, and what it serves. What lines say of it has its defaults here.
ghost use Rattle.std.specs.Prelude.{◌≡◌, [], None};
ghost use Rattle.std.specs.List.{list_any};
ghost use Rattle.session_text.specs.Sites.{has_ip, has_peer, new_site, same_peer, site_of};

use crate::image::Piece;
use crate::rows::Rows;
use crate::served::{Finish, Framing, SiteSaid};
use efi_base::{Bytes, Peer};
use std::alloc::Global;

/// A site, which serves one stream.
#[derive(Debug, Drop)]
pub struct Site {
    pub at: Peer,
    /// The most octets of a segment that it sends.
    pub mss: u16,
    /// The status of the response, and how many heads of status 100 stand before it.
    pub status: u16,
    pub interim: u8,
    pub framing: Framing,
    pub finish: Finish,
    /// Field lines of the head, without CRLF.
    pub headers: Rows<Bytes>,
    /// The pieces of the image, joined in order.
    pub image: Rows<Piece>,
}

/// A site of which nothing was said.
pub fn new_site(alloc: Global) -> SiteSaid
    ensures { result ≡ new_site }
{
    SiteSaid {
        mss: None,
        status: None,
        interim: None,
        framing: None,
        finish: None,
        headers: Rows::new(alloc),
        image: Rows::new(alloc),
    }
}

/// The site that stands here, of which this was said.
pub fn site_of(at: Peer, said: SiteSaid) -> Site
    ensures { result ≡ site_of at said }
{
    let SiteSaid {
        mss,
        status,
        interim,
        framing,
        finish,
        headers,
        image,
    } = said;
    Site {
        at,
        mss: mss.unwrap_or(1_460),
        status: status.unwrap_or(200),
        interim: interim.unwrap_or(0),
        framing: framing.unwrap_or(Framing::Length),
        finish: finish.unwrap_or(Finish::Fin),
        headers,
        image,
    }
}

pub fn is_same_peer(first: Peer, second: Peer) -> bool
    ensures { result ≡ same_peer first second }
{
    first.addr.0 == second.addr.0 && first.port == second.port
}

/// Whether a site stands at this address and port.
pub fn has_peer(sites: &[Site], at: Peer) -> bool
    ensures { result ≡ has_peer sites.now at }
{
    sites.iter().any(|site| is_same_peer(site.at, at))
}

/// Whether a site stands at this address.
pub fn has_ip(sites: &[Site], ip: u64) -> bool
    ensures { result ≡ has_ip sites.now ip }
{
    sites.iter().any(|site| u64::from(site.at.addr.0) == ip)
}
