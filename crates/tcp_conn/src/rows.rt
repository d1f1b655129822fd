//! When a SYN goes again, and when TIME-WAIT ends.
ghost use Rattle.std.specs.Prelude.{◌≡◌, ◌<◌, ◌≤◌, false};
ghost use Rattle.tcp_conn.specs.Calls.{is_waited, wait_end};
ghost use Rattle.tcp_conn.specs.Owed.{is_syn_due, is_syn_over, syn_sent};

use crate::state::ConnState;
use efi_base::Tick;
use tcp_send::{Backoff, SYN_ROWS};

/// How many ticks TIME-WAIT lasts.
const WAIT: u64 = 2_000;

/// Whether the SYN wasn't sent yet, or its next row is there.
pub fn is_syn_due(syn: Option<Backoff>, now: Tick) -> bool
    ensures { result ≡ is_syn_due syn now }
{
    match syn {
        Some(rows) => rows.is_due(now),
        None => true,
    }
}

/// Whether the next row ends the connection.
pub fn is_syn_over(syn: Option<Backoff>) -> bool
    ensures { result ≡ is_syn_over syn }
{
    match syn {
        Some(rows) => rows.passed >= SYN_ROWS,
        None => false,
    }
}

/// The SYN's rows after a sending.
pub fn syn_sent(syn: Option<Backoff>, now: Tick) -> Backoff
    requires { is_syn_over syn ≡ false }
    ensures { result ≡ syn_sent syn now }
{
    match syn {
        Some(rows) => Backoff {
            since: rows.since,
            passed: rows.passed + 1,
        },
        None => Backoff::start(now),
    }
}

/// Whether a connection in this state has waited long enough in TIME-WAIT.
pub fn is_waited(state: ConnState, since: Tick, now: Tick) -> bool
    ensures { result ≡ is_waited state since now }
{
    match state {
        ConnState::TimeWait => now.0.saturating_sub(since.0) >= WAIT,
        _ => false,
    }
}

/// The tick at which TIME-WAIT ends, where there is a tick of that number.
pub fn wait_end(since: Tick) -> Option<Tick>
    ensures { result ≡ wait_end since }
{
    match since.0.checked_add(WAIT) {
        Some(at) => Some(Tick(at)),
        None => None,
    }
}
