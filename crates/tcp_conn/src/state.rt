//! The states of a connection, and which follows which (RFC 9293, section 3.3.2).
ghost use Rattle.std.specs.Prelude.{◌≡◌};
ghost use Rattle.tcp_conn.specs.Connection.{is_closed};
ghost use Rattle.tcp_conn.specs.States.{heard_state, established_state, closed_state, sent_state, restarts_wait, resets_on_abort};

/// How a connection ended: both sides' FIN were acknowledged, a RST was heard, a SYN was answered by one, nothing
/// acknowledged the SYN, nothing acknowledged another segment, or the user gave the connection up.
#[derive(Clone, Copy, PartialEq, Eq, Debug)]
pub enum ConnEnd {
    Fin,
    Reset,
    Refused,
    ConnectTimeout,
    SendTimeout,
    Aborted,
}

/// The states of RFC 9293 but LISTEN, which is no connection's.
#[derive(Clone, Copy, PartialEq, Eq, Debug)]
pub enum ConnState {
    SynSent,
    SynReceived,
    Established,
    FinWait1,
    FinWait2,
    CloseWait,
    Closing,
    LastAck,
    TimeWait,
    Closed(ConnEnd),
}

impl ConnState {
    pub(crate) fn is_closed(self) -> bool
        ensures { result ≡ is_closed self }
    {
        matches!(self, ConnState::Closed(_))
    }

    /// The state once it is known whether this side's FIN is acknowledged, and whether the peer's is reached.
    pub(crate) fn after_hearing(self, acked: bool, ended: bool) -> ConnState
        ensures { result ≡ heard_state self acked ended }
    {
        match (self, acked, ended) {
            (ConnState::Established, _, true) => ConnState::CloseWait,
            (ConnState::FinWait1, true, true) => ConnState::TimeWait,
            (ConnState::FinWait1, true, false) => ConnState::FinWait2,
            (ConnState::FinWait1, false, true) => ConnState::Closing,
            (ConnState::FinWait2, _, true) => ConnState::TimeWait,
            (ConnState::Closing, true, _) => ConnState::TimeWait,
            (ConnState::LastAck, true, _) => ConnState::Closed(ConnEnd::Fin),
            (state, _, _) => state,
        }
    }

    /// The state that an acknowledged SYN brings, where the user has closed or hasn't.
    pub(crate) fn established(closed: bool) -> ConnState
        ensures { result ≡ established_state closed }
    {
        if closed {
            ConnState::FinWait1
        } else {
            ConnState::Established
        }
    }

    /// The state once the user has closed.
    pub(crate) fn after_close(self) -> ConnState
        ensures { result ≡ closed_state self }
    {
        match self {
            ConnState::Established => ConnState::FinWait1,
            state => state,
        }
    }

    /// The state once it is known whether the peer was silent for too long, whether this side's FIN was sent, and whether
    /// the user has given the connection up.
    pub(crate) fn after_sending(self, silent: bool, fin_sent: bool, aborted: bool) -> ConnState
        ensures { result ≡ sent_state self silent fin_sent aborted }
    {
        match (self, silent, fin_sent, aborted) {
            (_, true, _, _) => ConnState::Closed(ConnEnd::SendTimeout),
            (ConnState::CloseWait, false, true, false) => ConnState::LastAck,
            (state, false, _, _) => state,
        }
    }

    /// Whether the ticks of TIME-WAIT count anew once this state is followed by another, after FIN or not.
    pub(crate) fn restarts_wait(self, next: ConnState, fin: bool) -> bool
        ensures { result ≡ restarts_wait self next fin }
    {
        match (self, next) {
            (ConnState::TimeWait, ConnState::TimeWait) => fin,
            (_, ConnState::TimeWait) => true,
            _ => false,
        }
    }

    /// Whether an abort sends a RST (section 3.10.5).
    pub(crate) fn resets_on_abort(self) -> bool
        ensures { result ≡ resets_on_abort self }
    {
        match self {
            ConnState::SynReceived
            | ConnState::Established
            | ConnState::FinWait1
            | ConnState::FinWait2
            | ConnState::CloseWait => true,
            _ => false,
        }
    }
}
