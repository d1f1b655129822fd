//! URIs that a load can be asked for (RFC 9110, section 4.2.1). What a text means as a URL is the parser's of the crate
//! `url`.
ghost use Rattle.std.specs.Prelude.{◌≡◌, ◌≢◌, ◌≤◌, ◌^◌, false, length, None, Some, Ok, Err, IfOk, IfErr, MatchResult, ◌⊎◌};
ghost use Rattle.std.specs.Str.{is_utf8};
ghost use Rattle.url.specs.Parts.{Parts};
ghost use Rattle.url.specs.Parser.{parse_url};
ghost use Rattle.wire_http.specs.Uris.{uri_of, location_of, taken, answer_to, fault_of, AnswersUri, refusal_of, is_plain_host, host_of, port_of};

use crate::hosts::Host;
use crate::uri_fault::UriFault;
use efi_base::{Ip4, Name, is_host_name, is_unicast};
use std::alloc::Global;
use std::marker::Model;
use url::{ParseError, Url};

/// The port of `http` (RFC 9110, section 4.2.1).
pub const HTTP_PORT: u16 = 80;

/// A URI of the scheme `http`, with a port above 0 and a host that can be asked.
#[derive(Drop)]
pub struct Uri {
    url: Url,
}

impl Model for Uri {
    ghost use Rattle.std.specs.Prelude.{◌≡◌, None};
    ghost use Rattle.url.specs.Parts.{Parts, parts_code};

    ghost Value = { Parts };

    ghost coded = { parts_code };

    ghost use Rattle.wire_http.specs.Uris.{refusal_of};

    ghost view = { λ uri. uri.url };

    ghost invariant = { λ uri. refusal_of uri.url ≡ None };
}

impl Uri {
    /// Whom the URI names.
    pub fn host(&self) -> Host
        ensures host { host_of self.now.host ≡ Some result }
        ensures taken { refusal_of self.now ≡ None }
    {
        match self.url.host() {
            Some(url::Host::Ipv4(address)) => Host::At(Ip4(address.to_bits())),
            Some(url::Host::Domain(name)) => Host::Named(Name::from_slice(name.as_bytes())),
            _ => unreachable!(),
        }
    }

    /// The port of the connection.
    pub fn port(&self) -> u16
        ensures port { result ≡ port_of self.now }
        ensures taken { refusal_of self.now ≡ None }
    {
        self.url.port().unwrap_or(HTTP_PORT)
    }

    /// The URL.
    pub fn url(&self) -> &Url
        ensures url { result.now ≡ self.now }
        ensures taken { refusal_of self.now ≡ None }
    {
        &self.url
    }
}

fn is_plain_host(url: &Url) -> bool
    ensures { result ≡ is_plain_host url.now.host }
{
    match url.host() {
        Some(url::Host::Domain(name)) => is_host_name(name.as_bytes()),
        Some(url::Host::Ipv4(address)) => is_unicast(Ip4(address.to_bits())),
        _ => false,
    }
}

/// The first cause against a URL.
fn refusal_of(url: &Url) -> Option<UriFault>
    ensures { result ≡ refusal_of url.now }
{
    if url.port() == Some(0) {
        return Some(UriFault::Bad);
    }
    if url.scheme() != "http" {
        return Some(UriFault::Scheme);
    }
    if !is_plain_host(url) {
        return Some(UriFault::Host);
    }
    None
}

fn take(url: Url) -> Result<Uri, UriFault>
    ensures { result ≡ taken (Ok url) }
{
    match refusal_of(&url) {
        Some(fault) => Err(fault),
        None => Ok(Uri { url }),
    }
}

fn fault_of(error: ParseError) -> UriFault
    ensures { result ≡ fault_of error }
{
    match error {
        ParseError::OutOfMemory | ParseError::Overflow => UriFault::OutOfResources,
        _ => UriFault::Bad,
    }
}

/// What is answered to what the parser made.
fn answer_to(parsed: Result<Url, ParseError>) -> Result<Uri, UriFault>
    ensures { result ≡ answer_to parsed }
{
    match parsed {
        Ok(url) => take(url),
        Err(error) => Err(fault_of(error)),
    }
}

fn parse(alloc: Global, text: &str) -> Result<Uri, UriFault>
    ensures { AnswersUri result (taken (parse_url None text.now)) }
{
    answer_to(Url::parse(alloc, text))
}

fn decode(alloc: Global, text: &[u8]) -> Result<Uri, UriFault>
    ensures answers { AnswersUri result (uri_of text.now) }
    ensures no_text { is_utf8 text.now ≡ false → result ≡ Err UriFault.Bad }
{
    match str::from_utf8(text) {
        Ok(text) => parse(alloc, text),
        Err(_) => Err(UriFault::Bad),
    }
}

/// Reads the URI that a text writes. Octets that aren't UTF-8 are told as a bad URL, whatever memory there is.
pub fn read_uri(alloc: Global, text: &[u8]) -> Result<Uri, UriFault>
    requires { length text.now ≤ 2 ^ 16 }
    ensures taken { IfOk result (λ uri. uri_of text.now ≡ Ok uri) }
    ensures refused { IfErr result (λ fault. fault ≢ UriFault.OutOfResources → uri_of text.now ≡ Err fault) }
    ensures good { (uri : Parts) → uri_of text.now ≡ Ok uri
        → MatchResult result (λ read. read ≡ uri) (λ fault. fault ≡ UriFault.OutOfResources) }
    ensures bad { (cause : UriFault) → uri_of text.now ≡ Err cause
        → MatchResult result (λ read. ⊥) (λ fault. (fault ≡ UriFault.OutOfResources) ⊎ (fault ≡ cause)) }
    ensures no_text { is_utf8 text.now ≡ false → result ≡ Err UriFault.Bad }
{
    decode(alloc, text)
}

fn join(base: &Uri, text: &str) -> Result<Uri, UriFault>
    ensures { AnswersUri result (taken (parse_url (Some base.now) text.now)) }
{
    answer_to(base.url.join(text))
}

fn decode_location(base: &Uri, text: &[u8]) -> Result<Uri, UriFault>
    ensures answers { AnswersUri result (location_of base.now text.now) }
    ensures no_text { is_utf8 text.now ≡ false → result ≡ Err UriFault.Bad }
{
    match str::from_utf8(text) {
        Ok(text) => join(base, text),
        Err(_) => Err(UriFault::Bad),
    }
}

/// Reads the URI that the value of a Location field names for whoever asked for the base: a whole URI, or what differs
/// from the base (RFC 3986, section 5). Its faults are those of `read_uri`.
pub fn read_location(base: &Uri, text: &[u8]) -> Result<Uri, UriFault>
    requires { length text.now ≤ 2 ^ 16 }
    ensures taken { IfOk result (λ uri. location_of base.now text.now ≡ Ok uri) }
    ensures refused { IfErr result (λ fault. fault ≢ UriFault.OutOfResources → location_of base.now text.now ≡ Err fault) }
    ensures good { (uri : Parts) → location_of base.now text.now ≡ Ok uri
        → MatchResult result (λ read. read ≡ uri) (λ fault. fault ≡ UriFault.OutOfResources) }
    ensures bad { (cause : UriFault) → location_of base.now text.now ≡ Err cause
        → MatchResult result (λ read. ⊥) (λ fault. (fault ≡ UriFault.OutOfResources) ⊎ (fault ≡ cause)) }
    ensures no_text { is_utf8 text.now ≡ false → result ≡ Err UriFault.Bad }
{
    decode_location(base, text)
}
