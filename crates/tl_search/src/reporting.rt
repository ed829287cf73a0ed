// Events are added to a report.
ghost use Rattle.std.specs.Prelude.{◌≡◌, OnOk};
ghost use Rattle.tl_search.specs.Events.{event_of, events_after};

use crate::{Arrival, Event, Events};
use std::alloc::{AllocError, Global};
use tl_syntax::{Action, NoMemory};

/// Adds the event of what came of an action from the search node `at`, where events are watched. It
/// fails for want of memory alone, and takes none where they are not.
pub fn report_arrival(
    alloc: Global,
    events: &mut Events,
    watch: bool,
    at: usize,
    a: &Action,
    arrival: Arrival,
) -> Result<(), NoMemory>
    ensures { OnOk result (events.new ≡ events_after watch events.old (event_of at a.now arrival)) }
{
    if !watch {
        return Ok(());
    }
    let action = a.copy(alloc)?;
    let event = match arrival {
        Arrival::Pruned => Event::Pruned(at, action),
        Arrival::Seen(k) => Event::Seen(at, action, k),
        Arrival::Fresh(k) => Event::Kept(at, action, k),
    };
    events.push(event)?;
    Ok(())
}

/// Adds the event of the root, where events are watched. It fails for want of memory alone, and
/// takes none where they are not.
pub fn report_root(events: &mut Events, watch: bool, event: Event) -> Result<(), AllocError>
    ensures { OnOk result (events.new ≡ events_after watch events.old event) }
{
    if watch {
        events.push(event)?;
    }
    Ok(())
}
