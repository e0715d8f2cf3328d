//! Requests, read.

ghost use Rattle.std.specs.Prelude.{◌≡◌, ◌∷◌, [], IfOk, OnOk, IfErr};
ghost use Rattle.wire.specs.Reading.{FaultIn, IsSaidBy, fields_of};
ghost use Rattle.wire.specs.Requests.{IsFieldFault, IsRequest, IsRequestFault, IsSaid, fields_after};
ghost use Rattle.wire.specs.Values.{AreSpelled, a_length, a_phase_set, a_prefix, an_anchor, an_id, long, named, phased, seen};

use crate::fields::{anchor_at, id_at, length_at, phases_at, prefix_at};
use crate::request::Request;
use crate::request_word::RequestWord;
use crate::words::{
    four_fields, has_no_field, no_field, one_field, split_word, three_fields, two_fields,
};
use cim_words::{Id, Length, PhaseSet};
use room_words::{Act, Fault};

/// Reads a line as a request; in a script `look` may name a prefix.
pub fn read_request(line: &[u8], scripted: bool) -> Result<Request, Fault>
    ensures ok { IfOk result (IsRequest scripted line.now) }
    ensures fault { IfErr result (IsRequestFault scripted line.now) }
{
    let (first, fields) = split_word(line);
    match RequestWord::of(first) {
        Some(word) => read_after(word, fields, scripted),
        None => Err(Fault::Word),
    }
}

/// The request of a word and what follows it.
fn read_after(word: RequestWord, fields: &[u8], scripted: bool) -> Result<Request, Fault>
    ensures ok { IfOk result (IsSaid scripted word (fields_of fields.now)) }
    ensures fault { IfErr result (IsFieldFault scripted word (fields_of fields.now)) }
{
    match word {
        RequestWord::Look => read_look(fields, scripted),
        _ => read_fields(word, fields),
    }
}

/// The look of what follows its word: by the table, or in a script at a prefix.
fn read_look(fields: &[u8], scripted: bool) -> Result<Request, Fault>
    ensures ok { IfOk result (IsSaid scripted RequestWord.Look (fields_of fields.now)) }
    ensures fault { IfErr result (IsFieldFault scripted RequestWord.Look (fields_of fields.now)) }
{
    if !scripted || has_no_field(fields) {
        return read_fields(RequestWord::Look, fields);
    }
    match read_prefix(fields) {
        Ok(count) => Ok(Request::Look(Some(count))),
        Err(fault) => Err(fault),
    }
}

/// How many entries the prefix has that a look names.
fn read_prefix(fields: &[u8]) -> Result<u32, Fault>
    ensures ok { IfOk result (λ count. AreSpelled (seen count ∷ []) (fields_of fields.now)) }
    ensures fault { IfErr result (FaultIn (a_prefix ∷ []) (fields_of fields.now)) }
{
    let word = one_field(fields)?;
    prefix_at(1, word)
}

/// The request of a word and what follows it, by the table.
fn read_fields(word: RequestWord, fields: &[u8]) -> Result<Request, Fault>
    ensures ok { IfOk result (IsSaidBy word (fields_of fields.now)) }
    ensures fault { IfErr result (FaultIn (fields_after word) (fields_of fields.now)) }
{
    match word {
        RequestWord::Open => Ok(Request::Act(Act::OpenSwitch(read_id(fields)?))),
        RequestWord::Close => Ok(Request::Act(Act::CloseSwitch(read_id(fields)?))),
        RequestWord::Release => Ok(Request::Act(Act::Release(read_id(fields)?))),
        RequestWord::Remove => Ok(Request::Act(Act::Remove(read_id(fields)?))),
        RequestWord::Cut => {
            let (new_id, segment, length) = read_mark(fields)?;
            Ok(Request::Act(Act::Cut {
                new_id,
                segment,
                length,
            }))
        }
        RequestWord::Clamp => {
            let (new_id, segment, length) = read_mark(fields)?;
            Ok(Request::Act(Act::Clamp {
                new_id,
                segment,
                length,
            }))
        }
        RequestWord::Jumper => Ok(Request::Act(read_jumper(fields)?)),
        RequestWord::Ground => Ok(Request::Act(read_ground(fields)?)),
        RequestWord::Trace => {
            let (start, phases) = read_trace(fields)?;
            Ok(Request::Trace { start, phases })
        }
        RequestWord::Look => alone(Request::Look(None), fields),
        RequestWord::Stage => alone(Request::Stage, fields),
        RequestWord::Cutover => alone(Request::Cutover, fields),
        RequestWord::Bye => alone(Request::Bye, fields),
    }
}

/// A request that its word alone is, where nothing follows it.
fn alone(request: Request, fields: &[u8]) -> Result<Request, Fault>
    ensures same { IfOk result (λ read. read ≡ request) }
    ensures ok { OnOk result (fields_of fields.now ≡ []) }
    ensures fault { IfErr result (FaultIn [] (fields_of fields.now)) }
{
    no_field(fields)?;
    Ok(request)
}

/// The identifier of what is switched, released or taken away.
fn read_id(fields: &[u8]) -> Result<Id, Fault>
    ensures ok { IfOk result (λ id. AreSpelled (named id ∷ []) (fields_of fields.now)) }
    ensures fault { IfErr result (FaultIn (an_id ∷ []) (fields_of fields.now)) }
{
    let word = one_field(fields)?;
    id_at(1, word)
}

/// The identifiers of a mark and of its segment, and how far it stands from the segment's terminal 1.
fn read_mark(fields: &[u8]) -> Result<(Id, Id, Length), Fault>
    ensures ok { IfOk result (λ mark. AreSpelled (named mark.0 ∷ named mark.1 ∷ long mark.2 ∷ []) (fields_of fields.now)) }
    ensures fault { IfErr result (FaultIn (an_id ∷ an_id ∷ a_length ∷ []) (fields_of fields.now)) }
{
    let (new_id, segment, far) = three_fields(fields)?;
    mark_of(new_id, segment, far)
}

/// The same, of the three words.
fn mark_of(new_id: &[u8], segment: &[u8], far: &[u8]) -> Result<(Id, Id, Length), Fault>
    ensures ok { IfOk result (λ mark. AreSpelled (named mark.0 ∷ named mark.1 ∷ long mark.2 ∷ []) (new_id.now ∷ segment.now ∷ far.now ∷ [])) }
    ensures fault { IfErr result (FaultIn (an_id ∷ an_id ∷ a_length ∷ []) (new_id.now ∷ segment.now ∷ far.now ∷ [])) }
{
    Ok((id_at(1, new_id)?, id_at(2, segment)?, length_at(3, far)?))
}

/// The jumper of its fields.
fn read_jumper(fields: &[u8]) -> Result<Act, Fault>
    ensures ok { IfOk result (λ act. IsSaidBy RequestWord.Jumper (fields_of fields.now) (Request.Act act)) }
    ensures fault { IfErr result (FaultIn (an_id ∷ an_anchor ∷ an_anchor ∷ a_phase_set ∷ []) (fields_of fields.now)) }
{
    let (new_id, first, second, phases) = four_fields(fields)?;
    jumper_of(new_id, first, second, phases)
}

/// The same, of the four words.
fn jumper_of(new_id: &[u8], first: &[u8], second: &[u8], phases: &[u8]) -> Result<Act, Fault>
    ensures ok { IfOk result (λ act. IsSaidBy RequestWord.Jumper (new_id.now ∷ first.now ∷ second.now ∷ phases.now ∷ []) (Request.Act act)) }
    ensures fault { IfErr result (FaultIn (an_id ∷ an_anchor ∷ an_anchor ∷ a_phase_set ∷ []) (new_id.now ∷ first.now ∷ second.now ∷ phases.now ∷ [])) }
{
    Ok(Act::Jumper {
        new_id: id_at(1, new_id)?,
        first: anchor_at(2, first)?,
        second: anchor_at(3, second)?,
        phases: phases_at(4, phases)?,
    })
}

/// The ground of its fields.
fn read_ground(fields: &[u8]) -> Result<Act, Fault>
    ensures ok { IfOk result (λ act. IsSaidBy RequestWord.Ground (fields_of fields.now) (Request.Act act)) }
    ensures fault { IfErr result (FaultIn (an_id ∷ an_anchor ∷ a_phase_set ∷ []) (fields_of fields.now)) }
{
    let (new_id, at, phases) = three_fields(fields)?;
    ground_of(new_id, at, phases)
}

/// The same, of the three words.
fn ground_of(new_id: &[u8], at: &[u8], phases: &[u8]) -> Result<Act, Fault>
    ensures ok { IfOk result (λ act. IsSaidBy RequestWord.Ground (new_id.now ∷ at.now ∷ phases.now ∷ []) (Request.Act act)) }
    ensures fault { IfErr result (FaultIn (an_id ∷ an_anchor ∷ a_phase_set ∷ []) (new_id.now ∷ at.now ∷ phases.now ∷ [])) }
{
    Ok(Act::Ground {
        new_id: id_at(1, new_id)?,
        at: anchor_at(2, at)?,
        phases: phases_at(3, phases)?,
    })
}

/// Where a trace begins, and in which phases.
fn read_trace(fields: &[u8]) -> Result<(Id, PhaseSet), Fault>
    ensures ok { IfOk result (λ trace. AreSpelled (named trace.0 ∷ phased trace.1 ∷ []) (fields_of fields.now)) }
    ensures fault { IfErr result (FaultIn (an_id ∷ a_phase_set ∷ []) (fields_of fields.now)) }
{
    let (start, phases) = two_fields(fields)?;
    trace_of(start, phases)
}

/// The same, of the two words.
fn trace_of(start: &[u8], phases: &[u8]) -> Result<(Id, PhaseSet), Fault>
    ensures ok { IfOk result (λ trace. AreSpelled (named trace.0 ∷ phased trace.1 ∷ []) (start.now ∷ phases.now ∷ [])) }
    ensures fault { IfErr result (FaultIn (an_id ∷ a_phase_set ∷ []) (start.now ∷ phases.now ∷ [])) }
{
    Ok((id_at(1, start)?, phases_at(2, phases)?))
}
