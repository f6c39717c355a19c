//! The kinds of events, by name.

use ist_core::Event;

/// Returns the name of the event's kind, as a line of a log begins with it.
pub fn kind_of(event: &Event) -> &'static str {
    match event {
        Event::Enter { .. } => "Enter",
        Event::Reserve { .. } => "Reserve",
        Event::Install { .. } => "Install",
        Event::Okay { .. } => "Okay",
        Event::Decide { .. } => "Decide",
        Event::Resolve { .. } => "Resolve",
        Event::Count { .. } => "Count",
        Event::Mark { .. } => "Mark",
        Event::Pass { .. } => "Pass",
        Event::Finish { .. } => "Finish",
        Event::Root { .. } => "Root",
        Event::Draw { .. } => "Draw",
        Event::Place { .. } => "Place",
        Event::Lose { .. } => "Lose",
    }
}

/// The names of the kinds, each with how many fields follow it on a line.
const KINDS: [(&[u8], u64); 14] = [
    (b"Enter", 1),
    (b"Okay", 2),
    (b"Resolve", 2),
    (b"Count", 2),
    (b"Mark", 2),
    (b"Lose", 2),
    (b"Reserve", 3),
    (b"Install", 3),
    (b"Decide", 3),
    (b"Finish", 3),
    (b"Draw", 3),
    (b"Pass", 4),
    (b"Root", 4),
    (b"Place", 5),
];

/// Returns how many fields follow this name on a line, if it is the name of a kind.
pub fn fields_of(name: &[u8]) -> Option<u64> {
    for &(kind, fields) in &KINDS {
        if name == kind {
            return Some(fields);
        }
    }
    None
}
