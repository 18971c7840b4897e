// Demand 3 stands in specs/: it is no code. This function brings the declared types into the crate.
#![tactic(auto)]

ghost use Rattle.std.specs.Prelude.{◌≡◌};

use event::{Edit, Event, ReplayMode, StoredEdit};
use lists::{ActiveMap, EditMap};
use mixing::Span;
use ready::Ready;
use sequencer::Outcome;

// Hands the event on: it only names the declared types.
pub fn uses(
    event: Event,
    _stored: StoredEdit,
    _mode: ReplayMode,
    _index: ActiveMap,
    _edits: EditMap,
    _found: Option<usize>,
    _edit: Option<Edit>,
    _span: Span,
    _heap: Ready,
    _outcome: Outcome,
) -> Event
    ensures { result ≡ event }
{
    event
}
