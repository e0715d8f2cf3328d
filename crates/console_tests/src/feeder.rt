//! A small feeder, and the version of it without entries.

ghost use Rattle.std.specs.Prelude.{◌≡◌, ◌<◌, ◌^◌, [], length, IfOk};
ghost use Rattle.cim_model.specs.Profile.{IsFaultless};

use cim_profile::first_break;
use cim_words::{Id, NoMemory};
use nt_text::read_document;
use statement_set::StatementSet;
use std::alloc::Global;
use std::marker::Brand;
use std::sync::ledger::{Blank, Ledger};
use std::test::Fail;
use step_count::Steps;
use versions::Version;

/// The nodes a1, a2 and a3, the source e1, the breaker b1, the segment 51 of 100 m and the consumer c1, one behind another, in short.
const FEEDER: &str = r#"~a1> a <:ConnectivityNode> .
~a2> a <:ConnectivityNode> .
~a3> a <:ConnectivityNode> .
~e1> a <:EnergySource> .
~b1> a <:Breaker> .
~b1> <:Switch.normalOpen> "false" .
~51> a <:ACLineSegment> .
~51> <:Conductor.length> "100" .
~c1> a <:EnergyConsumer> .
~71> a <:Terminal> .
~71> <:Terminal.ConductingEquipment> ~e1> .
~71> <:Terminal.ConnectivityNode> ~a1> .
~72> a <:Terminal> .
~72> <:Terminal.ConductingEquipment> ~b1> .
~72> <:Terminal.ConnectivityNode> ~a1> .
~73> a <:Terminal> .
~73> <:Terminal.ConductingEquipment> ~b1> .
~73> <:Terminal.ConnectivityNode> ~a2> .
~74> a <:Terminal> .
~74> <:Terminal.ConductingEquipment> ~51> .
~74> <:Terminal.ConnectivityNode> ~a2> .
~74> <:ACDCTerminal.sequenceNumber> "1" .
~75> a <:Terminal> .
~75> <:Terminal.ConductingEquipment> ~51> .
~75> <:Terminal.ConnectivityNode> ~a3> .
~75> <:ACDCTerminal.sequenceNumber> "2" .
~76> a <:Terminal> .
~76> <:Terminal.ConductingEquipment> ~c1> .
~76> <:Terminal.ConnectivityNode> ~a3> .
"#;

/// The identifier whose last digits these are.
pub(crate) fn id(last: u16) -> Id {
    Id::of(0x4000_8000_0000_0000_0000 + u128::from(last))
}

/// The feeder's text in full.
fn text(alloc: Global) -> Result<String, NoMemory> {
    let named = FEEDER.replace(alloc, "~", "<urn:uuid:00000000-0000-4000-8000-0000000000")?;
    let typed = named.replace(
        alloc,
        " a ",
        " <http://www.w3.org/1999/02/22-rdf-syntax-ns#type> ",
    )?;
    typed.replace(alloc, "<:", "<http://iec.ch/TC57/CIM100#")
}

/// The feeder's statements, which break no rule.
fn statements(alloc: Global) -> Result<StatementSet, Fail>
    ensures { IfOk result IsFaultless }
{
    let text = text(alloc)?;
    if text.len() > 1_000_000 {
        return Err(Fail::new("a long base"));
    }
    let set = StatementSet::from_list(alloc, read_document(alloc, text.as_bytes())?)?;
    match first_break(alloc, &set)? {
        None => Ok(set),
        Some(found) => Err(Fail::new(found.rule)),
    }
}

/// The version of a base that breaks no rule.
fn version_of<L: Ledger>(
    alloc: Global,
    base: StatementSet,
    blank: Blank,
) -> Result<Version, NoMemory>
    requires name { blank.name ≡ L.name }
    requires parts { blank.parts ≡ L.parts }
    requires some { blank.parts ≡ 1 }
    requires base { IsFaultless base }
    ensures { IfOk result (λ version. version.log ≡ []) }
{
    let mut steps = Steps::<L>::of(blank);
    Version::first(alloc, base, &mut steps)
}

/// The feeder's version without entries.
pub(crate) fn first(alloc: Global) -> Result<Version, Fail>
    ensures { IfOk result (λ version. version.log ≡ []) }
{
    let base = statements(alloc)?;
    Ok(version_of::<Brand>(alloc, base, Blank::new(1))?)
}
