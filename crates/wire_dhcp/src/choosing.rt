//! Which offer a station takes. When it is asked is a driver's affair.
ghost use Rattle.std.specs.Prelude.{◌≡◌, if◌then◌else◌};
ghost use Rattle.wire_dhcp.specs.Choices.{choice_of};

use crate::says::Offer;
use efi_base::Ip4;

/// What to do with an offer.
#[derive(Clone, Copy, PartialEq, Eq, Debug)]
pub enum Choice {
    /// Take it.
    Select,
    /// Wait for another one.
    Wait,
    /// Take none and end.
    Abort,
}

/// Which offers are taken.
#[derive(Clone, Copy, PartialEq, Eq, Debug)]
pub enum ChooseRule {
    /// Those of HTTP Boot.
    Http,
    /// Each.
    Any,
    /// None.
    Never,
    /// None, and the first one ends the wait.
    Stop,
    /// Those of this server.
    From(Ip4),
}

/// What to do with the offer by the rule.
pub fn choice_of(rule: ChooseRule, offer: &Offer) -> Choice
    ensures { result ≡ choice_of rule offer.now }
{
    match rule {
        ChooseRule::Http => selected_if(offer.http),
        ChooseRule::Any => Choice::Select,
        ChooseRule::Never => Choice::Wait,
        ChooseRule::Stop => Choice::Abort,
        ChooseRule::From(server) => selected_if(offer.server == server),
    }
}

fn selected_if(good: bool) -> Choice
    ensures { result ≡ (if good then Choice.Select else Choice.Wait) }
{
    if good { Choice::Select } else { Choice::Wait }
}
