//! The limits of a history.

ghost use Rattle.std.specs.Prelude.{◌≡◌, ◌≤◌, IfErr, OnOk};
ghost use Rattle.versions.specs.History.{HasNoRoom, event_bytes};

use room_words::{Event, LogFull};

/// How many entries a history has at most.
const MOST_ENTRIES: u32 = 1_048_576;

/// How many bytes the written forms of its differences have together at most.
const MOST_LOG_BYTES: u64 = 536_870_912;

/// Whether a history with so many entries, whose differences have so many bytes, has room for an event.
pub fn log_room(entries: u32, bytes: u64, event: &Event) -> Result<(), LogFull>
    ensures room { OnOk result (HasNoRoom entries bytes event.now → ⊥) }
    ensures full { IfErr result (λ full. HasNoRoom entries bytes event.now × (full ≡ record { entries = entries; bytes = bytes })) }
{
    if entries >= MOST_ENTRIES || bytes.saturating_add(bytes_of(event)) > MOST_LOG_BYTES {
        return Err(LogFull { entries, bytes });
    }
    Ok(())
}

/// The bytes that an event counts for: an act for none, a difference for those of its written form.
pub(crate) fn bytes_of(event: &Event) -> u64
    ensures bytes { result ≡ event_bytes event.now }
    ensures few { result ≤ 67108864 }
{
    match event {
        Event::Act(_) => 0,
        Event::Cutover(difference) => {
            difference.difference().possible();
            difference.difference().size()
        }
    }
}
