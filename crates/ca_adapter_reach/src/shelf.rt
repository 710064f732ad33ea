ghost use Rattle.std.specs.Prelude.{◌≡◌, IfNone, IfSome};
ghost use Rattle.std.specs.List.{position};
ghost use Rattle.ca_adapter_reach.specs.Found.{IsAbsent, IsFound};

use crate::shelf_name::ShelfName;
use std::alloc::{AllocError, Global};
use std::marker::Model;

/// A thing under a name.
#[derive(Drop)]
pub struct Named<N, T> {
    pub name: N,
    pub thing: T,
}

/// A few things under names, each name once. Contracts see them in the order in which they were added.
#[derive(Drop)]
pub struct Shelf<N: ShelfName, T> {
    items: Vec<Named<N, T>>,
}

impl<N: ShelfName, T> Model for Shelf<N, T> {
    ghost use Rattle.std.specs.Prelude.{◌-◌};
    ghost use Rattle.ca_adapter_reach.specs.Shelved.{AreDistinct, Shelved};

    ghost Value = { Shelved N T };

    ghost use Rattle.std.specs.Prelude.{vec_len};
    ghost use Rattle.std.specs.Vec.{vec_capacity};

    ghost view = { λ s. record { things = s.items.items; room = vec_capacity s.items - vec_len s.items } };

    ghost invariant = { λ s. AreDistinct N.same s.items.items };
}

impl<N: ShelfName, T> Shelf<N, T> {
    ghost use Rattle.std.specs.Prelude.{◌≡◌, ◌+◌, ◌-◌, ◌<◌, ◌≤◌, [], ◌∷◌, ◌++◌, false, is_some, Some};
    ghost use Rattle.std.specs.Prelude.{OnOk, IsTrue, option_copied};
    ghost use Rattle.std.specs.Borrow.{sem};
    ghost use Rattle.ca_adapter_reach.specs.Shelved.{has_thing, thing_under, without_thing};
    ghost use Rattle.ca_adapter_reach.specs.Lending.{LendsThing};

    /// No things. It takes no memory; what is reserved later comes from `alloc`.
    pub fn empty(alloc: Global) -> Shelf<N, T>
        ensures { result.things ≡ [] }
    {
        Shelf {
            items: Vec::new(alloc),
        }
    }

    /// Makes room for at least so many more things.
    pub fn reserve(&mut self, n: u8) -> Result<(), AllocError>
        ensures room { OnOk result (n ≤ self.new.room) }
        ensures same { self.new.things ≡ self.old.things }
    {
        self.items.reserve(usize::from(n))?;
        Ok(())
    }

    /// Whether there is a thing of this name.
    pub fn has(&self, name: N) -> bool
        ensures { result ≡ has_thing N.same name self.now.things }
    {
        self.get(name).is_some()
    }

    /// The thing of a name. None comes exactly where there is none.
    pub fn get(&self, name: N) -> Option<&T>
        ensures { option_copied result ≡ thing_under N.same name self.now.things }
    {
        match position(self.items.as_slice(), name) {
            Some(i) => Some(&self.items[i].thing),
            None => None,
        }
    }

    /// The thing of a name that is there.
    pub fn at(&self, name: N) -> &T
        requires { IsTrue (has_thing N.same name self.now.things) }
        ensures { Some result.now ≡ thing_under N.same name self.now.things }
    {
        match position(self.items.as_slice(), name) {
            Some(i) => &self.items[i].thing,
            None => unreachable!(),
        }
    }

    /// The thing of a name that is there, to write to.
    pub fn at_mut(&mut self, name: N) -> &mut T
        requires { IsTrue (has_thing N.same name self.old.things) }
        ensures* writes_back { sem 𝓛 (LendsThing N.row T.row N.ShelfName self.entry name result) }
        ensures value { Some result.now ≡ thing_under N.same name self.old.things }
    {
        match position(self.items.as_slice(), name) {
            Some(i) => {
                let named = &mut self.items[i];
                &mut named.thing
            }
            None => unreachable!(),
        }
    }

    /// Puts a thing behind the others, in the spare room, under a name that has none. It takes no memory.
    pub fn add(&mut self, name: N, thing: T)
        requires room { 0 < self.old.room }
        requires free { has_thing N.same name self.old.things ≡ false }
        ensures things { self.new.things ≡ self.old.things ++ record { name = name; thing = thing } ∷ [] }
        ensures room { self.old.room ≤ self.new.room + 1 }
    {
        self.items.push(Named { name, thing }).unwrap()
    }

    #[tactic(auto, using(crate::proofs::ThingLemmas::taken_distinct, crate::proofs::ThingLemmas::taken_gone))]
    /// Takes the thing of a name. None comes exactly where there is none. It takes no memory.
    pub fn remove(&mut self, name: N) -> Option<T>
        ensures thing { result ≡ thing_under N.same name self.old.things }
        ensures things { self.new.things ≡ without_thing N.same name self.old.things }
        ensures gone { has_thing N.same name self.new.things ≡ false }
        ensures room { self.old.room ≤ self.new.room }
    {
        let i = position(self.items.as_slice(), name)?;
        Some(self.items.remove(i).thing)
    }
}

// Where the thing of a name stands.
#[tactic(auto, using(crate::proofs::ThingLemmas::found, crate::proofs::ThingLemmas::absent))]
fn position<N: ShelfName, T>(items: &[Named<N, T>], name: N) -> Option<usize>
    ensures found { IfSome result (IsFound N.same name items.now) }
    ensures absent { IfNone result (IsAbsent N.same name items.now) }
{
    first_place(items, name)
}

fn first_place<N: ShelfName, T>(items: &[Named<N, T>], name: N) -> Option<usize>
    ensures { result ≡ position (λ x. N.same x.name name) items.now }
{
    items.iter().position(|item| item.name.is(&name))
}
