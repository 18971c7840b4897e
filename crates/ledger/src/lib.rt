// Document 01's plain ledger stands in specs/: it is no code. This function brings the declared types of events into the crate.
#![tactic(auto)]

ghost use Rattle.std.specs.Prelude.{◌≡◌};

use event::{Event, Placing, Placings, ReplayMode, StoredEdit};

// Hands the event on: it only names the declared types.
pub fn uses(
    event: Event,
    _stored: StoredEdit,
    _mode: ReplayMode,
    _places: Placings,
    _how: Placing,
) -> Event
    ensures { result ≡ event }
{
    event
}
