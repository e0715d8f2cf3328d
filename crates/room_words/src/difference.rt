//! Differences between two models.

ghost use Rattle.std.specs.Prelude.{◌≡◌, length};
ghost use Rattle.room_words.specs.Differences.{Changes, IsDifference, written_difference};

use cim_words::Statements;
use std::marker::Model;

/// A change of the permanent model that the planning office sends (after the difference model of IEC 61970-552).
///
/// Each list has at most 200,000 statements, no written line of a statement has more than 8,192 bytes without its end, and the written
/// form of the whole has at most 67,108,864 bytes.
#[derive(Drop)]
pub struct Difference {
    header: Statements,
    pre: Statements,
    rev: Statements,
    fwd: Statements,
    size: u64,
}

impl Model for Difference {
    ghost use Rattle.std.specs.Prelude.{◌≡◌, length};
    ghost use Rattle.room_words.specs.Differences.{Changes, IsDifference, written_difference};

    ghost Value = { Changes };

    ghost view = { λ d. record { header = d.header; pre = d.pre; rev = d.rev; fwd = d.fwd } };

    // The limits hold, and the size is the length of the written form.
    ghost invariant = { λ d. IsDifference (record { header = d.header; pre = d.pre; rev = d.rev; fwd = d.fwd })
        × (d.size ≡ length (written_difference (record { header = d.header; pre = d.pre; rev = d.rev; fwd = d.fwd }))) };
}

impl Difference {
    /// The difference with these lists, whose written form has this many bytes.
    pub fn of(
        header: Statements,
        pre: Statements,
        rev: Statements,
        fwd: Statements,
        size: u64,
    ) -> Difference
        requires possible { IsDifference (record { header = header; pre = pre; rev = rev; fwd = fwd }) }
        requires size { size ≡ length (written_difference (record { header = header; pre = pre; rev = rev; fwd = fwd })) }
        ensures { result ≡ record { header = header; pre = pre; rev = rev; fwd = fwd } }
    {
        Difference {
            header,
            pre,
            rev,
            fwd,
            size,
        }
    }

    /// The header, which is kept and not judged.
    pub fn header(&self) -> &Statements
        ensures { result.now ≡ self.now.header }
    {
        &self.header
    }

    /// The preconditions: what has to be in the model beforehand.
    pub fn pre(&self) -> &Statements
        ensures { result.now ≡ self.now.pre }
    {
        &self.pre
    }

    /// The reverse statements: what is taken out of the model.
    pub fn rev(&self) -> &Statements
        ensures { result.now ≡ self.now.rev }
    {
        &self.rev
    }

    /// The forward statements: what is put into the model.
    pub fn fwd(&self) -> &Statements
        ensures { result.now ≡ self.now.fwd }
    {
        &self.fwd
    }

    /// How many bytes its written form has.
    pub fn size(&self) -> u64
        ensures { result ≡ length (written_difference self.now) }
    {
        self.size
    }

    /// The limits that every difference keeps.
    pub fn possible(&self)
        ensures { IsDifference self.now }
    {
        let _size = self.size;
    }
}
