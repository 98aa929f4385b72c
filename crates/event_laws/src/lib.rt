//! The law of trace events: their text is JSON, and is read back as those events. No code.
#![tactic(auto)]

ghost use Rattle.event_laws.specs.ReadBack.{EventsAreRead};

/// The text of the trace events of a set's plays is read, by the definition of JSON of `serde_json`, as one object whose array has
/// a value for each event, in order, with its members.
pub fn events_are_read()
    ensures { EventsAreRead }
{}
