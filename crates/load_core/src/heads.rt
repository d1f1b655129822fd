//! The heads in front of a body (RFC 9112, section 2.1; RFC 9110, section 15.2): interim ones, and the final one.
ghost use Rattle.std.specs.Prelude.{◌≡◌, ◌≤◌, ◌<◌, length};
ghost use Rattle.wire_http.specs.Response.{HasNoHeads, HasBadHead};
ghost use Rattle.load_core.specs.Final.{is_interim_status, IfFinal, IfLast, IfInterim, HasPassed, IsFinal};

use wire_http::{Head, HeadInfo, MOST_HEAD, read_head};

/// What stands at the front of a stream.
#[derive(Clone, Copy, PartialEq, Eq, Debug)]
pub enum Found {
    /// All heads, with what the final one says, and the length of all in octets.
    Final(HeadInfo, usize),
    /// The front of heads.
    More,
    /// No head behind the interim ones, whatever follows.
    Bad,
}

/// What stands behind some interim heads.
#[derive(Clone, Copy)]
enum Next {
    /// One more of them, up to this place.
    Interim(usize),
    /// The final head, up to this place.
    Final(HeadInfo, usize),
    /// The front of a head.
    More,
    /// No head, whatever follows.
    Bad,
}

/// Whether another head follows one of this status: 100 to 199, but 101, which ends the exchange.
fn is_interim(status: u16) -> bool
    ensures { result ≡ is_interim_status status }
{
    status >= 100 && (status <= 199 && status != 101)
}

/// What stands at a place behind interim heads.
fn look_at(bytes: &[u8], at: usize) -> Next
    requires inside { at ≤ length bytes.now }
    requires short { length bytes.now ≤ MOST_HEAD }
    requires passed { HasPassed bytes.now at }
    ensures interim { IfInterim result (λ n. (at < n) × (n ≤ length bytes.now) × HasPassed bytes.now n) }
    ensures last { IfLast result (IsFinal bytes.now) }
    ensures no { result ≡ Next.More → HasNoHeads bytes.now }
    ensures more { result ≡ Next.More → ¬ (HasBadHead bytes.now) }
    ensures bad { result ≡ Next.Bad → HasBadHead bytes.now }
{
    match read_head(&bytes[at..]) {
        Head::Whole(info, len) if is_interim(info.status) => Next::Interim(at + len),
        Head::Whole(info, len) => Next::Final(info, at + len),
        Head::More => Next::More,
        Head::Bad => Next::Bad,
    }
}

/// Where the final head ends, among octets that are no more than the most of all heads.
pub fn find_final(bytes: &[u8]) -> Found
    requires { length bytes.now ≤ MOST_HEAD }
    ensures last { IfFinal result (IsFinal bytes.now) }
    ensures no { result ≡ Found.More → HasNoHeads bytes.now }
    ensures more { result ≡ Found.More → ¬ (HasBadHead bytes.now) }
    ensures bad { result ≡ Found.Bad → HasBadHead bytes.now }
{
    let mut at = 0;
    loop {
        match look_at(bytes, at) {
            Next::Interim(next) => at = next,
            Next::Final(info, len) => return Found::Final(info, len),
            Next::More => return Found::More,
            Next::Bad => return Found::Bad,
        }
    }
}
