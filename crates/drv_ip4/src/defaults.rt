//! What the end of a default address does to tokens. What it does to routes isn't here.
ghost use Rattle.std.specs.Prelude.{◌≡◌, ◌<◌, length, IfSome};
ghost use Rattle.std.specs.List.{list_any, position};
ghost use Rattle.efi_base.specs.declared.tokens.End.TheVariants.{NoMapping};
ghost use Rattle.efi_book.specs.Books.{Keeps, ticket_of};
ghost use Rattle.efi_book.specs.Firsts.{first_by};
ghost use Rattle.efi_book.specs.Rounds.{all_ended};
ghost use Rattle.drv_ip4.specs.Lost.{is_user_of, lost_with, rests_on, uses_default};

use crate::work::{Ip4K, IpCfg, IpWork};
use efi_base::{Addr, ChildId, End, Ticket};
use efi_book::{Book, Child, Children, Pending};

fn uses_default(cfg: &Option<IpCfg>) -> bool
    ensures { result ≡ uses_default cfg.now }
{
    match cfg {
        Some(cfg) => cfg.at.is_none(),
        None => false,
    }
}

fn is_user_of(id: ChildId, child: &Child<Option<IpCfg>>) -> bool
    ensures { result ≡ is_user_of id child.now }
{
    child.serial == id.0 && uses_default(&child.value)
}

/// Whether a caller's child of this serial uses the default address.
fn is_callers(children: &Children<Ip4K, Option<IpCfg>>, id: ChildId) -> bool
    ensures { result ≡ list_any (is_user_of id) children.now.live }
{
    for i in 0..children.len() {
        if is_user_of(id, children.at(i)) {
            return true;
        }
    }
    false
}

/// Whether a child of the stack's own of this serial uses the default address.
fn is_own(children: &Children<Ip4K, Option<IpCfg>>, id: ChildId) -> bool
    ensures { result ≡ list_any (is_user_of id) children.now.own }
{
    for i in 0..children.own_len() {
        if is_user_of(id, children.own_at(i)) {
            return true;
        }
    }
    false
}

/// Whether the token is of a child that uses the default address.
fn rests_on(children: &Children<Ip4K, Option<IpCfg>>, p: &Pending<IpWork>) -> bool
    ensures { result ≡ rests_on children.now p.now }
{
    is_callers(children, p.child) || is_own(children, p.child)
}

/// Where the oldest token stands that rests on the default address.
fn place_resting(
    children: &Children<Ip4K, Option<IpCfg>>,
    pending: &[Pending<IpWork>],
) -> Option<usize>
    ensures place { result ≡ position (rests_on children.now) pending.now }
    ensures within { IfSome result (λ k. k < length pending.now) }
{
    pending.iter().position(|p| rests_on(children, p))
}

fn first_resting(
    children: &Children<Ip4K, Option<IpCfg>>,
    pending: &[Pending<IpWork>],
) -> Option<Ticket>
    ensures { result ≡ ticket_of (first_by (rests_on children.now) pending.now) }
{
    let i = place_resting(children, pending)?;
    Some(pending[i].ticket)
}

/// The tokens that rest on the default address end, the oldest first. It takes no memory.
fn end_resting(children: &Children<Ip4K, Option<IpCfg>>, tokens: &mut Book<IpWork>)
    ensures after { tokens.new ≡ all_ended (rests_on children.now) NoMapping tokens.old }
    ensures keeps { Keeps tokens.old tokens.new }
{
    let mut left = tokens.pending().len();
    while left > 0 {
        let Some(t) = first_resting(children, tokens.pending()) else {
            return;
        };
        tokens.complete(t, End::NoMapping);
        left -= 1;
    }
}

/// The tokens that rest on the default address end, where one stood. It takes no memory.
pub(crate) fn lose(
    children: &Children<Ip4K, Option<IpCfg>>,
    tokens: &mut Book<IpWork>,
    home: Option<Addr>,
)
    ensures after { tokens.new ≡ lost_with home children.now tokens.old }
    ensures keeps { Keeps tokens.old tokens.new }
{
    if let Some(_) = home {
        end_resting(children, tokens);
    }
}
