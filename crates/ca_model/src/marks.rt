use crate::mark::Mark;
use ca_base::Memory;
use std::alloc::Global;
use std::marker::Model;

/// For how many more marks each call of an engine leaves room: those of the packet that its turn sends, Sent and Lost, which
/// its caller adds where nothing may fail any more.
pub const SPARE_MARKS: u32 = 2;

/// The marks of an event, in order. Contracts see them as a list, beside the spare room for more.
#[derive(Drop)]
pub struct Marks {
    items: Vec<Mark>,
}

impl Model for Marks {
    ghost use Rattle.ca_model.specs.Marks.{MarkList};

    ghost Value = { MarkList };

    ghost use Rattle.ca_model.specs.MarksView.{view_of};

    ghost view = { view_of };
}

impl Marks {
    ghost use Rattle.std.specs.Prelude.{◌≡◌, ◌≤◌, ◌<◌, ◌+◌, [], ◌∷◌, ◌++◌, length, take, OnOk};

    /// No marks. It takes no memory; what is reserved later comes from `alloc`.
    pub fn empty(alloc: Global) -> Marks
        ensures { result.marks ≡ [] }
    {
        Marks {
            items: Vec::new(alloc),
        }
    }

    /// Makes room for at least `n` more marks.
    pub fn reserve(&mut self, n: u32) -> Result<(), Memory>
        ensures room { OnOk result (n ≤ self.new.room) }
        ensures same { self.new.marks ≡ self.old.marks }
    {
        self.items.reserve(n as usize)?;
        Ok(())
    }

    /// Adds a mark at the end, in the spare room. It takes no memory.
    pub fn push(&mut self, mark: Mark)
        requires { 0 < self.old.room }
        ensures marks { self.new.marks ≡ self.old.marks ++ mark ∷ [] }
        ensures room { self.old.room ≤ self.new.room + 1 }
    {
        self.items.push_reserved(mark)
    }

    /// Adds marks at the end, in the spare room. It takes no memory.
    pub fn append(&mut self, mut more: Vec<Mark>)
        requires { length more.items ≤ self.old.room }
        ensures marks { self.new.marks ≡ self.old.marks ++ more.items }
        ensures room { self.old.room ≤ self.new.room + length more.items }
    {
        self.items.append(&mut more).unwrap()
    }

    /// Keeps so many of the marks, the first ones. It takes no memory.
    pub fn truncate(&mut self, count: usize)
        ensures { self.new.marks ≡ take count self.old.marks }
    {
        self.items.truncate(count);
    }

    /// The marks in order.
    pub fn as_slice(&self) -> &[Mark]
        ensures { result.now ≡ self.now.marks }
    {
        self.items.as_slice()
    }

    /// The vector that holds the marks. It takes no memory.
    pub fn into_vec(self) -> Vec<Mark>
        ensures { result.items ≡ self.marks }
    {
        self.items
    }
}

impl From<Vec<Mark>> for Marks {
    ghost use Rattle.std.specs.Prelude.{◌≡◌};

    ghost from_gives = { λ v m. m.marks ≡ v.items };

    fn from(items: Vec<Mark>) -> Marks {
        Marks { items }
    }
}
