//! The index of a model.

ghost use Rattle.std.specs.Prelude.{◌≡◌, IfOk};
ghost use Rattle.cim_model.specs.Profile.{IsFaultless};

use crate::tables::Tables;
use cim_words::NoMemory;
use statement_set::StatementSet;
use std::alloc::Global;
use std::marker::Model;
use std::sync::Arc;

/// The network of a model without fault. Contracts see it as the model's statements; each query is a rule of the network over them.
#[derive(Drop)]
pub struct Index {
    pub(crate) tables: Arc<Tables>,
}

impl Model for Index {
    ghost use Rattle.std.specs.Prelude.{List};
    ghost use Rattle.std.specs.Arc.{arc_value};
    ghost use Rattle.cim_words.specs.declared.statement.Statement.{Statement};

    ghost Value = { List Statement };

    ghost view = { λ index. (arc_value index.tables).set };
}

impl Index {
    /// The index of a set of statements that breaks no rule of the profile.
    pub fn build(alloc: Global, set: &StatementSet) -> Result<Index, NoMemory>
        requires { IsFaultless set.now }
        ensures { IfOk result (λ index. index ≡ set.now) }
    {
        let tables = Tables::build(alloc, set)?;
        match Arc::new(alloc, tables) {
            Ok(tables) => Ok(Index { tables }),
            Err(_) => Err(NoMemory),
        }
    }

    /// The same index once more.
    pub fn share(&self) -> Result<Index, NoMemory>
        ensures { IfOk result (λ index. index ≡ self.now) }
    {
        Ok(Index {
            tables: Arc::try_clone(&self.tables)?,
        })
    }

    /// The model's set of statements, which breaks no rule of the profile.
    pub fn set(&self) -> &StatementSet
        ensures set { result.now ≡ self.now }
        ensures faultless { IsFaultless self.now }
    {
        &self.tables.set
    }
}
