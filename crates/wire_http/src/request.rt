//! The request of a load (RFC 9112, section 3): GET in origin form, without the URI's fragment, user name and password.
ghost use Rattle.std.specs.Prelude.{◌≡◌, IfOk, string_bytes};
ghost use Rattle.url.specs.Input.{Grows};
ghost use Rattle.wire_http.specs.Requests.{authority_text, host_part, port_text, query_text, request_text, target_text};

use crate::uris::{HTTP_PORT, Uri};
use efi_base::{Bytes, NoMemory};
use std::alloc::{AllocError, Global};
use url::Url;

fn push_query(out: &mut String, url: &Url) -> Result<(), AllocError>
    ensures { Grows result out.old out.new (query_text url.now.query) }
{
    match url.query() {
        Some(query) => write!(out, "?{query}"),
        None => Ok(()),
    }
}

fn push_target(out: &mut String, uri: &Uri) -> Result<(), AllocError>
    ensures { Grows result out.old out.new (target_text uri.now) }
{
    let url = uri.url();
    out.push_str(url.path())?;
    push_query(out, url)
}

fn push_host(out: &mut String, url: &Url) -> Result<(), AllocError>
    ensures { Grows result out.old out.new (host_part url.now.host) }
{
    match url.host_str() {
        Some(host) => out.push_str(host),
        None => Ok(()),
    }
}

fn push_port(out: &mut String, port: u16) -> Result<(), AllocError>
    ensures { Grows result out.old out.new (port_text port) }
{
    if port == HTTP_PORT {
        return Ok(());
    }
    write!(out, ":{port}")
}

fn push_authority(out: &mut String, uri: &Uri) -> Result<(), AllocError>
    ensures { Grows result out.old out.new (authority_text uri.now) }
{
    push_host(out, uri.url())?;
    push_port(out, uri.port())
}

fn render(alloc: Global, uri: &Uri) -> Result<String, AllocError>
    ensures { IfOk result (λ text. string_bytes text ≡ request_text uri.now) }
{
    let mut text = String::from_str(alloc, "GET ")?;
    push_target(&mut text, uri)?;
    text.push_str(" HTTP/1.1\r\nHost: ")?;
    push_authority(&mut text, uri)?;
    text.push_str("\r\nUser-Agent: efiboot\r\nAccept: */*\r\nConnection: close\r\n\r\n")?;
    Ok(text)
}

/// The octets that ask for the URI's resource.
pub fn request_text(alloc: Global, uri: &Uri) -> Result<Bytes, NoMemory>
    ensures { IfOk result (λ text. text ≡ request_text uri.now) }
{
    Ok(Bytes::from_vec(render(alloc, uri)?.into_bytes()))
}
