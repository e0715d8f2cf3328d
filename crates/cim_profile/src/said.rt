//! How often a property is spoken of.

ghost use Rattle.std.specs.Prelude.{◌≡◌, length};
ghost use Rattle.cim_model.specs.Model as spec;
ghost use Rattle.cim_model.specs.Profile.{is_one_name};
ghost use Rattle.cim_words.specs.Properties as property;

use cim_model::is_by;
use cim_words::{KnownProp, Object};
use statement_set::About;

/// How many statements speak of a property.
pub(crate) fn count(statements: &About<'_>, known: KnownProp) -> usize
    ensures { result ≡ length (spec.said_in statements.now known) }
{
    statements
        .again()
        .filter(|statement| is_by(known, statement))
        .count()
}

/// Whether a property is not spoken of.
pub(crate) fn is_silent(statements: &About<'_>, known: KnownProp) -> bool
    ensures { result ≡ spec.is_empty (spec.said_in statements.now known) }
{
    count(statements, known) == 0
}

/// Whether there is one type statement, and it names a class.
pub(crate) fn has_one_name(statements: &About<'_>) -> bool
    ensures { result ≡ is_one_name (spec.said_in statements.now property.rdf_type) }
{
    count(statements, KnownProp::RDF_TYPE) == 1
        && statements.again().any(|statement| is_by(KnownProp::RDF_TYPE, statement)
            && matches!(statement.object, Object::Name(_)))
}
