//! Which heading stands on a line.

ghost use Rattle.std.specs.Prelude.{◌≡◌, find};
ghost use Rattle.std.specs.List.{list_all};
ghost use Rattle.nt_text.specs.Grammar.{is_blank};
ghost use Rattle.difference.specs.Steps.{headings, stands_on};

use room_words::Heading;

/// The headings, in their order.
const HEADINGS: [Heading; 5] = [
    Heading::Header,
    Heading::Preconditions,
    Heading::Reverse,
    Heading::Forward,
    Heading::End,
];

/// The heading that stands on a line.
pub(crate) fn heading_of(line: &[u8]) -> Option<Heading>
    ensures { result ≡ find (stands_on line.now) headings }
{
    HEADINGS
        .iter()
        .copied()
        .find(|heading| stands_on(line, *heading))
}

/// Whether a heading stands on a line.
#[tactic(auto, unfolding(crate::specs::Steps::stands_on))]
fn stands_on(line: &[u8], heading: Heading) -> bool
    ensures { result ≡ stands_on line.now heading }
{
    match line.strip_prefix(heading.text().as_bytes()) {
        Some(gap) => is_gap(gap),
        None => false,
    }
}

/// Whether there are spaces and tabs alone.
fn is_gap(bytes: &[u8]) -> bool
    ensures { result ≡ list_all is_blank bytes.now }
{
    bytes.iter().all(|byte| matches!(byte, b' ' | b'\t'))
}
