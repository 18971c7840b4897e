// Random lists of calls run on the plain ledger's definitions (specs/), with the Rust's answers: no code. This function brings the declared types of events into the crate.
#![tactic(auto)]

ghost use Rattle.std.specs.Prelude.{◌≡◌};

use event::{Event, ReplayMode, StoredEdit};

// Hands the event on: it only names the declared types.
pub fn uses(event: Event, _stored: StoredEdit, _mode: ReplayMode) -> Event
    ensures { result ≡ event }
{
    event
}
