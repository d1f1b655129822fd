//! The rows of the server's names: addresses and aliases.
ghost use Rattle.std.specs.Prelude.{◌≡◌, IfOk, option_map};
ghost use Rattle.std.specs.List.{list_any};
ghost use Rattle.std.specs.Str.{str_eq_ignore_ascii_case};
ghost use Rattle.session_text.specs.Names.{address_row, alias_row, has_address, has_alias, name_line, name_of, put_address, put_alias, put_name};
ghost use Rattle.session_text.specs.Putting.{Puts};

use crate::rows::Rows;
use crate::words::split;
use efi_base::{Ip4, Name, NoMemory};
use text_base::{ip, is_name};

/// The most rows of a kind.
const MOST_ROWS: usize = 16;

/// A name and its address (RFC 1035, section 3.4.1).
#[derive(Debug, Drop)]
pub struct AddressRow {
    pub name: Name,
    pub ip: Ip4,
}

/// A name that stands for another one (RFC 1035, section 3.3.1).
#[derive(Debug, Drop)]
pub struct AliasRow {
    pub alias: Name,
    pub name: Name,
}

/// A line that gives a row.
#[derive(Drop)]
pub enum NameLine {
    Address(AddressRow),
    Alias(AliasRow),
}

/// The rows that were said.
#[derive(Debug, Drop)]
pub struct Names {
    pub addresses: Rows<AddressRow>,
    pub aliases: Rows<AliasRow>,
}

/// The name that a word is.
pub fn name_of(text: &[u8]) -> Option<Name>
    ensures { result ≡ name_of text.now }
{
    if !is_name(text) {
        return None;
    }
    Some(Name::from_slice(text))
}

fn address_row(text: &[u8]) -> Option<AddressRow>
    ensures { result ≡ address_row text.now }
{
    let Some((name, address)) = split(text) else {
        return None;
    };
    let Some(ip) = ip(address) else {
        return None;
    };
    name_of(name).map(|name| AddressRow { name, ip })
}

fn alias_row(text: &[u8]) -> Option<AliasRow>
    ensures { result ≡ alias_row text.now }
{
    let Some((alias, name)) = split(text) else {
        return None;
    };
    let Some(name) = name_of(name) else {
        return None;
    };
    name_of(alias).map(|alias| AliasRow { alias, name })
}

/// The line of this word, and what stands behind it.
pub fn name_line(key: &[u8], text: &[u8]) -> Option<NameLine>
    ensures { result ≡ name_line key.now text.now }
{
    if key == b"name".as_slice() {
        return address_row(text).map(|row| NameLine::Address(row));
    }
    if key == b"cname".as_slice() {
        return alias_row(text).map(|row| NameLine::Alias(row));
    }
    None
}

/// Whether the names are the same without case.
fn is_same(first: &Name, second: &Name) -> bool
    ensures { result ≡ str_eq_ignore_ascii_case first.now second.now }
{
    first.as_slice().eq_ignore_ascii_case(second.as_slice())
}

fn has_address(rows: &[AddressRow], name: &Name) -> bool
    ensures { result ≡ has_address rows.now name.now }
{
    rows.iter().any(|row| is_same(&row.name, name))
}

fn has_alias(rows: &[AliasRow], alias: &Name) -> bool
    ensures { result ≡ has_alias rows.now alias.now }
{
    rows.iter().any(|row| is_same(&row.alias, alias))
}

fn put_address(rows: &mut Rows<AddressRow>, row: AddressRow) -> Result<bool, NoMemory>
    ensures { IfOk result (λ good. Puts (put_address rows.old row) rows.new good) }
{
    if rows.len() >= MOST_ROWS {
        return Ok(false);
    }
    if has_address(rows.as_slice(), &row.name) {
        return Ok(false);
    }
    rows.push(row)?;
    Ok(true)
}

fn put_alias(rows: &mut Rows<AliasRow>, row: AliasRow) -> Result<bool, NoMemory>
    ensures { IfOk result (λ good. Puts (put_alias rows.old row) rows.new good) }
{
    if rows.len() >= MOST_ROWS {
        return Ok(false);
    }
    if has_alias(rows.as_slice(), &row.alias) {
        return Ok(false);
    }
    rows.push(row)?;
    Ok(true)
}

/// Puts a row behind the others. Whether it has a place and a name of its own.
pub fn put_name(names: &mut Names, line: NameLine) -> Result<bool, NoMemory>
    ensures { IfOk result (λ good. Puts (put_name names.old line) names.new good) }
{
    match line {
        NameLine::Address(row) => put_address(&mut names.addresses, row),
        NameLine::Alias(row) => put_alias(&mut names.aliases, row),
    }
}
