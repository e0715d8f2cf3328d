//! The forms that properties ask of their values, for the rule of the profile on these.

ghost use Rattle.std.specs.Prelude.{◌≡◌};
ghost use Rattle.cim_model.specs.Profile as spec;

use cim_model::{code_of, kind_of, length_of, number_of, truth_of};
use cim_words::{KnownProp, Object};

/// Whether a value is of the form that its property asks for.
pub(crate) fn has_form(known: KnownProp, object: &Object) -> bool
    ensures { result ≡ spec.has_form known object.now }
{
    match known {
        KnownProp::K4 => code_of(object).is_some(),
        KnownProp::K5 => number_of(object).is_some(),
        KnownProp::K6 | KnownProp::K7 | KnownProp::K18 => truth_of(object).is_some(),
        KnownProp::K8 | KnownProp::K10 | KnownProp::K12 => length_of(object).is_some(),
        KnownProp::K14 | KnownProp::K16 | KnownProp::K19 | KnownProp::K20 => kind_of(
            object,
        ).is_some(),
        _ => true,
    }
}
