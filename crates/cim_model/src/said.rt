//! What statements say by a property.

ghost use Rattle.std.specs.Prelude.{◌≡◌, ℕ, option_map};
ghost use Rattle.cim_model.specs.Model as spec;
ghost use Rattle.cim_model.specs.Values as values;

use cim_words::{
    Class, Id, KnownProp, Length, Object, PhaseSet, Prop, Statement, read_sequence_number,
    read_truth,
};

/// Whether a statement speaks of a property.
pub fn is_by(known: KnownProp, statement: &Statement) -> bool
    ensures { result ≡ spec.is_by known statement.now }
{
    match &statement.prop {
        Prop::Known(prop) => *prop == known,
        Prop::Other(_) => false,
    }
}

/// The class that an object names.
pub fn class_of(object: &Object) -> Option<Class>
    ensures { result ≡ spec.class_named object.now }
{
    match object {
        Object::Name(name) => Some(Class::of_iri(name.iri())),
        _ => None,
    }
}

/// The identifier that an object is.
pub fn id_of(object: &Object) -> Option<Id>
    ensures number { option_map values.number_of_id result ≡ spec.id_said object.now }
    ensures test { (x : ℕ) → values.is_some_id x result ≡ spec.is_id x object.now }
{
    match object {
        Object::Id(id) => Some(*id),
        _ => None,
    }
}

/// The sequence number that an object states.
pub fn number_of(object: &Object) -> Option<u32>
    ensures { result ≡ values.number_said object.now }
{
    match object {
        Object::Text(text) => read_sequence_number(text.text()),
        _ => None,
    }
}

/// The length that an object states.
pub fn length_of(object: &Object) -> Option<Length>
    ensures { option_map values.mm_of result ≡ values.length_said object.now }
{
    match object {
        Object::Text(text) => Length::read(text.text()).ok(),
        _ => None,
    }
}

/// The truth value that an object states.
pub fn truth_of(object: &Object) -> Option<bool>
    ensures { result ≡ values.truth_said object.now }
{
    match object {
        Object::Text(text) => read_truth(text.text()),
        _ => None,
    }
}

/// The phases that an object names by a phase code.
pub fn code_of(object: &Object) -> Option<PhaseSet>
    ensures { result ≡ values.code_said object.now }
{
    match object {
        Object::Name(name) => PhaseSet::of_code_iri(name.iri()).ok(),
        _ => None,
    }
}

/// The one phase that an object names as a kind of phase.
pub fn kind_of(object: &Object) -> Option<PhaseSet>
    ensures { result ≡ values.kind_said object.now }
{
    match object {
        Object::Name(name) => PhaseSet::of_kind_iri(name.iri()).ok(),
        _ => None,
    }
}

/// The identifier that a statement names by a property.
pub fn named_by(known: KnownProp, statement: &Statement) -> Option<Id>
    ensures test { (x : ℕ) → values.is_some_id x result ≡ spec.is_naming known x statement.now }
    ensures value { option_map values.number_of_id result ≡ spec.named_by known statement.now }
{
    if is_by(known, statement) {
        id_of(&statement.object)
    } else {
        None
    }
}
