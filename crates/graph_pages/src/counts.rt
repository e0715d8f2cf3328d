//! How much the entries of a graph list.

ghost use Rattle.std.specs.Prelude.{◌≡◌, ◌+◌, ◌≤◌, sum_by, IfOk};
ghost use Rattle.graph_pages.specs.Keyed.{item_at, size_in};
ghost use Rattle.graph_pages.specs.Size.{sections_in, sections_of, spokes_of};

use crate::keyed::Keyed;
use crate::paged_map::PagedMap;
use crate::star::{Pass, Star};
use cim_words::NoMemory;

/// A number of spokes, and one of places and sections.
#[derive(Clone, Copy)]
pub(crate) struct Counts {
    pub(crate) spokes: usize,
    pub(crate) hubs: usize,
}

impl Counts {
    /// Nothing.
    pub(crate) const NONE: Counts = Counts { spokes: 0, hubs: 0 };

    /// A place.
    pub(crate) const PLACE: Counts = Counts { spokes: 0, hubs: 1 };

    /// What a star counts for: its spokes, and its sections where it is a line.
    pub(crate) fn of_star(star: &Star) -> Counts
        ensures spokes { result.spokes ≡ spokes_of star.now }
        ensures hubs { result.hubs ≡ sections_of star.now }
    {
        Counts {
            spokes: star.spokes.len(),
            hubs: sections_in(&star.pass),
        }
    }

    /// Counts that are enough after something gave way to something else. It is want of memory where one is no number of items.
    pub(crate) fn changed(self, gone: Counts, come: Counts) -> Result<Counts, NoMemory>
        ensures spokes { IfOk result (λ now. self.spokes + come.spokes ≤ now.spokes + gone.spokes) }
        ensures hubs { IfOk result (λ now. self.hubs + come.hubs ≤ now.hubs + gone.hubs) }
    {
        Ok(Counts {
            spokes: changed(self.spokes, gone.spokes, come.spokes)?,
            hubs: changed(self.hubs, gone.hubs, come.hubs)?,
        })
    }
}

impl<T: Keyed> PagedMap<T> {
    /// Counts that are enough for all items.
    pub(crate) fn counts(&self) -> Result<Counts, NoMemory>
        ensures spokes { IfOk result (λ counts. sum_by T.spokes self.now ≤ counts.spokes) }
        ensures hubs { IfOk result (λ counts. sum_by T.hubs self.now ≤ counts.hubs) }
    {
        let mut counts = Counts::NONE;
        for item in self.entries() {
            counts = counts.changed(Counts::NONE, item.counts())?;
        }
        Ok(counts)
    }

    /// What the item of a key counts for, if there is one.
    pub(crate) fn counts_at(&self, key: T::Key) -> Counts
        ensures spokes { result.spokes ≡ size_in T.spokes (item_at T.key_of T.same_key key self.now) }
        ensures hubs { result.hubs ≡ size_in T.hubs (item_at T.key_of T.same_key key self.now) }
    {
        match self.get(key) {
            Some(item) => item.counts(),
            None => Counts::NONE,
        }
    }
}

/// How many sections a line has.
fn sections_in(pass: &Pass) -> usize
    ensures { result ≡ sections_in pass.now }
{
    match pass {
        Pass::Line { sections, .. } => sections.len(),
        _ => 0,
    }
}

/// A count that is enough after something gave way to something else.
fn changed(count: usize, gone: usize, come: usize) -> Result<usize, NoMemory>
    ensures { IfOk result (λ now. count + come ≤ now + gone) }
{
    match count.saturating_sub(gone).checked_add(come) {
        Some(now) => Ok(now),
        None => Err(NoMemory),
    }
}
