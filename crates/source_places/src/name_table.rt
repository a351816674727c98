//! A table of the names of data words.

ghost use Rattle.std.specs.Prelude.{◌≡◌, ℕ, List, take, IfOk, OnOk};
ghost use Rattle.std.specs.Option.{option_map, option_or};
ghost use Rattle.source_places.specs.DataNames.{first_called, first_word, if_called};
ghost use Rattle.source_places.specs.SourcePlaces.{data_name_seen, data_names_seen};
ghost use Rattle.source_places.specs.NameTables.{name_in_table};

use crate::data_names::DataName;
use std::alloc::{AllocError, Global};
use std::collections::HashMap;

/// The names of data words, each found by its bytes without a look at the others.
#[derive(Drop)]
pub struct DataNames<'t> {
    by_name: HashMap<&'t [u8], DataName<'t>>,
}

impl<'t> DataNames<'t> {
    /// A table of some names. Of equal ones it has the first. Only memory can be missing.
    pub fn of(alloc: Global, names: &[DataName<'t>]) -> Result<DataNames<'t>, AllocError>
        ensures { IfOk result (λ t. (name : List ℕ) → name_in_table t name
            ≡ first_called name (data_names_seen names.now)) }
    {
        let mut table = DataNames {
            by_name: HashMap::new(alloc),
        };
        for name in names {
            table.note(name)?;
        }
        Ok(table)
    }

    /// The line's data words that are so called; None where no name of the table is this one.
    #[tactic(auto, unfolding(crate::specs::NameTables::name_in_table))]
    pub fn called(&self, name: &[u8]) -> Option<DataName<'t>>
        ensures { option_map data_name_seen result ≡ name_in_table self.now name.now }
    {
        self.by_name.get(name).copied()
    }

    /// The first data word, from 0, that is so called; None where no name of the table is this one.
    pub fn find(&self, name: &[u8]) -> Option<usize>
        ensures { result ≡ first_word (name_in_table self.now name.now) }
    {
        Some(self.called(name)?.first)
    }

    /// Adds a name. One that the table has stays as it is.
    #[tactic(auto, unfolding(crate::specs::NameTables::name_in_table))]
    fn note(&mut self, name: &DataName<'t>) -> Result<(), AllocError>
        ensures { OnOk result ((q : List ℕ) → name_in_table self.new q
            ≡ option_or (name_in_table self.old q) (if_called q (data_name_seen name.now))) }
    {
        self.by_name.entry(name.name)?.or_insert(*name);
        Ok(())
    }
}
