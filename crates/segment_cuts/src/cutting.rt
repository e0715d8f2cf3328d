//! A line of spots, cut up.

ghost use Rattle.std.specs.Prelude.{◌≡◌, ◌++◌, ◌∷◌, [], cond, length, ◌<◌, IfOk, OnOk};
ghost use Rattle.segment_cuts.specs.Line as spec;
ghost use Rattle.segment_cuts.specs.Line.{IsCutUp, spots};

use crate::line::Placed;
use crate::mark::Spot;
use crate::segment::Section;
use cim_words::{Listed, NoMemory};
use std::alloc::Global;
use std::mem;

impl Spot {
    /// Whether a section begins with the spot.
    fn begins_section(self) -> bool
        ensures { result ≡ spec.begins self }
    {
        matches!(self, Spot::CutTwo(_))
    }
}

/// The sections of a line, which has spots.
pub(crate) fn cut_up(alloc: Global, line: &[Placed]) -> Result<Vec<Section>, NoMemory>
    requires { 0 < length line.now }
    ensures { IfOk result (λ sections. IsCutUp (spots line.now) sections.items) }
{
    let mut sections = Vec::new(alloc);
    let mut section = Vec::new(alloc);
    for placed in line {
        put(placed.spot, &mut sections, &mut section)?;
    }
    sections.push(Listed::of(section))?;
    Ok(sections)
}

/// Puts a spot into the last section, or into a new one that it begins.
fn put(spot: Spot, sections: &mut Vec<Section>, section: &mut Vec<Spot>) -> Result<(), NoMemory>
    ensures sections { OnOk result (sections.new.items ≡ cond (spec.begins spot) (sections.old.items ++ section.old.items ∷ []) sections.old.items) }
    ensures section { OnOk result (section.new.items ≡ cond (spec.begins spot) (spot ∷ []) (section.old.items ++ spot ∷ [])) }
{
    if spot.begins_section() {
        let next = Vec::new(*section.allocator());
        sections.push(Listed::of(mem::replace(section, next)))?;
    }
    section.push(spot)?;
    Ok(())
}
