ghost use Rattle.std.specs.Prelude.{◌≡◌, ◌≤◌, ◌<◌, ◌^◌, [], length, None, option_map, OnOk, OnErr};
ghost use Rattle.host_ledger.specs.Entries.{entry_at, with_entry};

use crate::entry::{Entry, EntryState};
use crate::key::Key;
use indexmap::IndexMap;
use std::alloc::{AllocError, Global};
use std::marker::Model;

/// An amount and its state, under the key of its transaction.
#[derive(Clone, Copy)]
struct Row {
    amount: u64,
    state: EntryState,
}

/// The entries by their keys. Contracts see the list of them in the order in which they came.
#[derive(Drop)]
pub struct Rows {
    table: IndexMap<Key, Row>,
}

impl Model for Rows {
    ghost use Rattle.std.specs.Prelude.{List, map};
    ghost use Rattle.host_ledger.specs.declared.entry.Entry.{Entry};
    ghost use Rattle.host_ledger.specs.KeptEntries.{kept_entry};

    ghost Value = { List Entry };

    ghost view = { λ r. map kept_entry r.table.entries };
}

impl Rows {
    /// No entries.
    pub fn new(alloc: Global) -> Rows
        ensures { result ≡ [] }
    {
        Rows {
            table: IndexMap::new(alloc),
        }
    }

    /// The entry of a key.
    pub fn get(&self, key: &Key) -> Option<Entry>
        ensures { result ≡ entry_at key.now self.now }
    {
        let row = self.table.get(key)?;
        Some(Entry {
            key: key.copy(),
            amount: row.amount,
            state: row.state,
        })
    }

    /// How many entries there are.
    pub fn len(&self) -> usize
        ensures count { result ≡ length self.now }
        ensures small { result < 2 ^ 63 }
    {
        self.table.len()
    }

    /// Keeps an entry, in place of its key's one if there is one. Only a new key needs memory.
    pub fn put(&mut self, entry: Entry) -> Result<(), AllocError>
        ensures ok { OnOk result (self.new ≡ with_entry entry self.old) }
        ensures err { OnErr result (self.new ≡ self.old) }
        ensures absent { OnErr result (entry_at entry.key self.old ≡ None) }
    {
        let row = Row {
            amount: entry.amount,
            state: entry.state,
        };
        match self.table.insert(entry.key, row) {
            Ok(_) => return Ok(()),
            Err(_) => return Err(AllocError),
        }
    }
}
