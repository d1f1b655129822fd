//! Children and tokens, told by the order of the lines that create and post.
ghost use Rattle.std.specs.Prelude.{◌≡◌, ◌-◌, slice_get, option_copied};
ghost use Rattle.script_text.specs.Handles.{accepted_of, created_of, handle_next, handle_of, token_of};

use crate::words::Words;
use efi_base::{Proto, TokenId};
use session_text::number_in;

/// A child.
#[derive(Clone, Copy, PartialEq, Eq, Debug)]
pub enum Handle {
    /// The one that was given as this number, counted from 1. A `create` that is refused gives none, so the lines only bound it.
    Created(u64),
    /// The connection that this accept token gave.
    Accepted(TokenId),
}

/// The token of one of so many lines that post.
pub fn token_of(posts: u64, word: &[u8]) -> Option<TokenId>
    ensures { result ≡ token_of posts word.now }
{
    let Some(n) = number_in(word, 1, posts) else {
        return None;
    };
    Some(TokenId(n))
}

/// A child by its number, and its protocol.
fn created_of(made: &[Proto], word: &[u8]) -> Option<(Handle, Proto)>
    ensures { result ≡ created_of made.now word.now }
{
    let Some(n) = number_in(word, 1, made.len() as u64) else {
        return None;
    };
    let Some(proto) = made.get(n as usize - 1) else {
        return None;
    };
    Some((Handle::Created(n), *proto))
}

/// A connection by the token that accepted it.
fn accepted_of(posts: u64, word: &[u8]) -> Option<(Handle, Proto)>
    ensures { result ≡ accepted_of posts word.now }
{
    let Some(token) = token_of(posts, word) else {
        return None;
    };
    Some((Handle::Accepted(token), Proto::Tcp4))
}

/// The child that a word names, and its protocol.
fn handle_of(made: &[Proto], posts: u64, word: &[u8]) -> Option<(Handle, Proto)>
    ensures { result ≡ handle_of made.now posts word.now }
{
    match word {
        [b'a', token @ ..] => accepted_of(posts, token),
        _ => created_of(made, word),
    }
}

/// The child that the next word names, its protocol, and what stands behind.
pub fn handle_next<'a>(
    made: &[Proto],
    posts: u64,
    words: Words<'a>,
) -> Option<(Handle, Proto, Words<'a>)>
    ensures { result ≡ handle_next made.now posts words.entry }
{
    let Some((word, left)) = words.word() else {
        return None;
    };
    let Some((handle, proto)) = handle_of(made, posts, word) else {
        return None;
    };
    Some((handle, proto, left))
}
