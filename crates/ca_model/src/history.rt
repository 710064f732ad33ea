use crate::entry::Entry;
use ca_base::Memory;
use std::alloc::Global;
use std::marker::Model;

/// A history: all events in the order of their stamps. Contracts see it as a list.
#[derive(Drop)]
pub struct History {
    entries: Vec<Entry>,
}

impl Model for History {
    ghost use Rattle.std.specs.Prelude.{List, map};
    ghost use Rattle.ca_model.specs.Entries.{EntryValue, entry_of};
    ghost use Rattle.ca_model.specs.History.{IsHistory};
    ghost use Rattle.ca_model.specs.HistoryView.{view_of, IsSound};

    ghost Value = { List EntryValue };

    ghost view = { view_of };

    ghost invariant = { IsSound };
}

impl History {
    ghost use Rattle.std.specs.Prelude.{◌≡◌, ◌==◌, [], ◌∷◌, ◌++◌, length, map, OnOk, OnErr};
    ghost use Rattle.ca_model.specs.Entries.{entry_of};
    ghost use Rattle.ca_model.specs.History.{IsEntry, IsHistory};

    /// The history of no events. It takes no memory; what is pushed later comes from `alloc`.
    pub fn empty(alloc: Global) -> History
        ensures { result ≡ [] }
    {
        History {
            entries: Vec::new(alloc),
        }
    }

    /// The history of these entries, whose stamps count from 0 and each of which has the marks that its event may have. It
    /// takes no memory.
    pub fn of(entries: Vec<Entry>) -> History
        requires { IsHistory (map entry_of entries.items) }
        ensures { result ≡ map entry_of entries.items }
    {
        History { entries }
    }

    /// How many entries there are.
    pub fn len(&self) -> usize
        ensures { result ≡ length self.now }
    {
        self.entries.len()
    }

    /// Whether there are none.
    pub fn is_empty(&self) -> bool
        ensures { result ≡ (length self.now == 0) }
    {
        self.entries.is_empty()
    }

    /// Adds an entry at the end. Its stamp is the number of entries, and its marks are those that its event may have.
    pub fn push(&mut self, entry: Entry) -> Result<(), Memory>
        requires { IsEntry (length self.old) (entry_of entry) }
        ensures ok { OnOk result (self.new ≡ self.old ++ entry_of entry ∷ []) }
        ensures err { OnErr result (self.new ≡ self.old) }
    {
        self.entries.push(entry)?;
        Ok(())
    }

    /// The entries in order.
    pub fn as_slice(&self) -> &[Entry]
        ensures entries { map entry_of result.now ≡ self.now }
        ensures well_formed { IsHistory self.now }
    {
        self.entries.as_slice()
    }
}
