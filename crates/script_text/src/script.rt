//! What a whole script says.
ghost use Rattle.std.specs.Prelude.{◌≡◌};
ghost use Rattle.script_text.specs.Scripts.{script_from};

use crate::draft::Draft;
use crate::step::Step;
use efi_base::Mac;
use session_text::Rows;

/// The station's Ethernet address, where none is told.
const STATION_MAC: Mac = Mac([2, 0, 0, 0, 0, 1]);

/// A script: the station, and its steps in order.
#[derive(Debug, Drop)]
pub struct Script {
    pub mac: Mac,
    /// From this the station's numbers are made: ports, first sequence numbers, transactions.
    pub seed: u32,
    pub steps: Rows<Step>,
}

/// What the lines say, with what is said by default.
#[tactic(auto, unfolding(crate::specs::Scripts::script_from))]
pub fn script_from(draft: Draft) -> Script
    ensures { result ≡ script_from draft }
{
    let Draft {
        begun: _,
        ended: _,
        mac,
        seed,
        last: _,
        made: _,
        posts: _,
        steps,
    } = draft;
    Script {
        mac: mac.unwrap_or(STATION_MAC),
        seed: seed.unwrap_or(1),
        steps,
    }
}
