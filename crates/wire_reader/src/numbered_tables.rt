//! What calls name, numbered as first seen.

ghost use Rattle.std.specs.Prelude.{◌≡◌, IfOk};
ghost use Rattle.wire_reader.specs.Tabled.{nothing_seen, seen_by_tables, seen_of};

use crate::numbered_sets::NumberedSets;
use crate::numbered_texts::NumberedTexts;
use std::alloc::{AllocError, Global};
use wire_scripts::Tables;

/// The keys of puts and gets, published names, values of puts and publishes, and the sets of processes of fences.
pub struct NumberedTables {
    pub keys: NumberedTexts,
    pub names: NumberedTexts,
    pub values: NumberedTexts,
    pub sets: NumberedSets,
}

// By hand and not derived: so dropping one is a call, and the proof of a function that drops one doesn't take it apart.
impl Drop for NumberedTables {
    fn drop(self) {
        let NumberedTables {
            keys: _,
            names: _,
            values: _,
            sets: _,
        } = self;
    }
}

impl NumberedTables {
    /// Tables of nothing. Takes no memory.
    pub fn new(alloc: Global) -> NumberedTables
        ensures { seen_of result ≡ nothing_seen }
    {
        NumberedTables {
            keys: NumberedTexts::new(alloc),
            names: NumberedTexts::new(alloc),
            values: NumberedTexts::new(alloc),
            sets: NumberedSets::new(alloc),
        }
    }

    /// What they hold, with the same numbers, as scripts hold it.
    pub fn into_tables(self, alloc: Global) -> Result<Tables, AllocError>
        ensures { IfOk result (λ tables. seen_by_tables tables ≡ seen_of self) }
    {
        let NumberedTables {
            keys,
            names,
            values,
            sets,
        } = self;
        let keys = keys.into_texts(alloc)?;
        let names = names.into_texts(alloc)?;
        let values = values.into_texts(alloc)?;
        let sets = sets.into_sets(alloc)?;
        Ok(Tables {
            keys,
            names,
            values,
            sets,
        })
    }
}
