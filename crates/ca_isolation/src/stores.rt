ghost use Rattle.std.specs.List.{AllByRecursion};
ghost use Rattle.std.specs.Prelude.{◌≡◌, ◌<◌, ◌≤◌, ◌^◌, Bool, true, [], ◌∷◌, ◌++◌, None, IfOk, OnOk, length, min, reverse};
ghost use Rattle.ca_isolation.specs.Alone as lone;
ghost use Rattle.ca_isolation.specs.Alone.{cells_from, cells_of, run_of_stretch, stretches_of_write, writes_of, writes_of_access};
ghost use Rattle.ca_keys.specs.Memory.{cut, runs_for};
ghost use Rattle.ca_keys.specs.declared.place.Place.{Place};
ghost use Rattle.ca_isolation.specs.Cover.{EndsInReach, covers};
ghost use Rattle.ca_isolation.specs.Extents.{IsAlong, IsExtent, StartsInReach, bytes_of_extent, place_of};
ghost use Rattle.ca_isolation.specs.InForce.{AreInForce};
ghost use Rattle.ca_isolation.specs.Putting as putting;
ghost use Rattle.ca_isolation.specs.Putting.{goes_on_at, HasPut, HasStored, list_of, stretches_of_writes};
ghost use Rattle.ca_model.specs.Past.{Past};

use crate::Stretch;
use crate::extent::{Extent, Spot, extent_at};
use crate::in_force::grant_for;
use ca_base::{Ask, Bytes, Grant, Memory, Place, Run, Verdict};
use ca_model::{Event, Mark, Verb};
use std::alloc::Global;

/// The events of a lone run so far, and the covered bytes that a write has put and that no Store is made of yet.
#[derive(Drop)]
pub(crate) struct Stores {
    pub events: Vec<Event>,
    pub front: Option<Stretch>,
}

impl Stores {
    /// Nothing yet. It takes no memory; what is pushed later comes from `alloc`.
    pub fn none(alloc: Global) -> Stores
        ensures events { result.events.items ≡ [] }
        ensures front { result.front ≡ None }
    {
        Stores {
            events: Vec::new(alloc),
            front: None,
        }
    }

    /// Puts the Stores for what a mark tells of as written, under the grants in force before it.
    pub fn put_mark(
        &mut self,
        alloc: Global,
        cover: &[Run],
        in_force: &[Grant],
        mark: &Mark,
    ) -> Result<(), Memory>
        requires reach { AllByRecursion EndsInReach cover.now }
        requires front { self.old.front ≡ None }
        ensures { OnOk result ((past : Past) → AreInForce in_force.now past
            → HasStored (stretches_of_writes (covers cover.now) (writes_of past mark.now)) self.old self.new) }
    {
        match mark {
            Mark::Remote {
                queue,
                domain,
                envelope: _,
                key,
                kind,
                address,
                length,
                verdict,
            } => {
                let ask = Ask {
                    queue: *queue,
                    domain: *domain,
                    key: *key,
                    local: false,
                    kind: *kind,
                    address: *address,
                    length: *length,
                    touch: *length,
                };
                self.put_verdict(alloc, cover, in_force, &ask, verdict)
            }
            Mark::Local {
                queue,
                domain,
                key,
                kind,
                address,
                length,
                verdict,
            } => {
                let ask = Ask {
                    queue: *queue,
                    domain: *domain,
                    key: *key,
                    local: true,
                    kind: *kind,
                    address: *address,
                    length: *length,
                    touch: *length,
                };
                self.put_verdict(alloc, cover, in_force, &ask, verdict)
            }
            Mark::Stored { place, bytes } => self.put_stored(
                alloc,
                cover,
                *place,
                bytes.as_slice(),
            ),
            _ => Ok(()),
        }
    }

    /// Puts the Stores for what an access wrote.
    fn put_verdict(
        &mut self,
        alloc: Global,
        cover: &[Run],
        in_force: &[Grant],
        ask: &Ask,
        verdict: &Verdict,
    ) -> Result<(), Memory>
        requires reach { AllByRecursion EndsInReach cover.now }
        requires front { self.old.front ≡ None }
        ensures { OnOk result ((past : Past) → AreInForce in_force.now past → HasStored
            (stretches_of_writes (covers cover.now) (writes_of_access past ask.now verdict.now)) self.old self.new) }
    {
        match verdict {
            Verdict::Wrote(bytes) => self.put_access(alloc, cover, in_force, ask, bytes.as_slice()),
            Verdict::Swapped { found: _, put } => {
                self.put_access(alloc, cover, in_force, ask, &put.to_le_bytes())
            }
            _ => Ok(()),
        }
    }

    /// Puts the Stores for bytes that an access wrote, as many as are there, from the ask's address on.
    fn put_access(
        &mut self,
        alloc: Global,
        cover: &[Run],
        in_force: &[Grant],
        ask: &Ask,
        bytes: &[u8],
    ) -> Result<(), Memory>
        requires reach { AllByRecursion EndsInReach cover.now }
        requires front { self.old.front ≡ None }
        ensures { OnOk result (HasStored (stretches_of_write (covers cover.now) (record {
          runs = runs_for ask.now (reverse in_force.now) (length bytes.now);
          bytes = bytes.now;
        })) self.old self.new) }
    {
        match grant_for(in_force, ask) {
            Some(grant) => {
                let before = ask.address.saturating_sub(grant.address);
                self.put_runs(alloc, cover, grant.runs.as_slice(), before, bytes)?;
                self.end()
            }
            None => Ok(()),
        }
    }

    /// Puts the Stores for bytes that were stored from a place on.
    fn put_stored(
        &mut self,
        alloc: Global,
        cover: &[Run],
        at: Place,
        bytes: &[u8],
    ) -> Result<(), Memory>
        requires reach { AllByRecursion EndsInReach cover.now }
        requires front { self.old.front ≡ None }
        ensures { OnOk result (HasStored (stretches_of_write (covers cover.now) (record {
          runs = run_of_stretch (record { at = at; bytes = bytes.now }) ∷ [];
          bytes = bytes.now;
        }))
            self.old self.new) }
    {
        let at = Spot {
            adapter: at.adapter,
            buffer: at.buffer,
            offset: u64::from(at.offset),
        };
        self.put_bytes(alloc, cover, at, bytes)?;
        self.end()
    }

    /// Puts bytes to the places of runs, without so many places at their front.
    fn put_runs(
        &mut self,
        alloc: Global,
        cover: &[Run],
        runs: &[Run],
        before: u64,
        bytes: &[u8],
    ) -> Result<(), Memory>
        requires { AllByRecursion EndsInReach cover.now }
        ensures { OnOk result (HasPut (covers cover.now)
            (cells_of (cut before (length bytes.now) runs.now) bytes.now) self.old self.new) }
    {
        let mut skip = before;
        let mut done = 0;
        for run in runs {
            let length = u64::from(run.length);
            if length <= skip {
                skip -= length;
            } else {
                let count = (bytes.len() - done).min((length - skip) as usize);
                let at = Spot {
                    adapter: run.adapter,
                    buffer: run.buffer,
                    offset: u64::from(run.offset) + skip,
                };
                self.put_bytes(alloc, cover, at, &bytes[done..done + count])?;
                done += count;
                skip = 0;
            }
        }
        Ok(())
    }

    /// Puts bytes to the places from a spot on.
    fn put_bytes(
        &mut self,
        alloc: Global,
        cover: &[Run],
        at: Spot,
        bytes: &[u8],
    ) -> Result<(), Memory>
        requires reach { AllByRecursion EndsInReach cover.now }
        requires near { at.offset < 2 ^ 33 }
        ensures { OnOk result (HasPut (covers cover.now)
            (cells_from (place_of at) (length bytes.now) bytes.now) self.old self.new) }
    {
        let mut done = 0;
        while done < bytes.len() {
            let here = Spot {
                adapter: at.adapter,
                buffer: at.buffer,
                offset: at.offset + done as u64,
            };
            let extent = extent_at(cover, here);
            let count = count_of(extent, bytes.len() - done);
            self.put_extent(alloc, extent, here, &bytes[done..done + count])?;
            done += count;
        }
        Ok(())
    }

    /// Puts bytes that lie in an extent.
    fn put_extent(
        &mut self,
        alloc: Global,
        extent: Extent,
        at: Spot,
        bytes: &[u8],
    ) -> Result<(), Memory>
        requires some { 0 < length bytes.now }
        requires within { length bytes.now ≤ bytes_of_extent extent }
        requires reach { StartsInReach at extent }
        ensures { OnOk result ((cover : Place → Bool) → IsExtent cover at extent
            → HasPut cover (cells_from (place_of at) (length bytes.now) bytes.now) self.old self.new) }
    {
        match extent {
            Extent::Covered(_) => {
                let at = Place {
                    adapter: at.adapter,
                    buffer: at.buffer,
                    offset: at.offset as u32,
                };
                self.put_covered(alloc, at, bytes)
            }
            Extent::Bare(_) => self.end(),
        }
    }

    /// Puts bytes that are all covered: behind what is open where they go on there, and else as what is open from now on.
    fn put_covered(&mut self, alloc: Global, at: Place, bytes: &[u8]) -> Result<(), Memory>
        requires { 0 < length bytes.now }
        ensures { OnOk result ((cover : Place → Bool) → IsAlong cover true at (length bytes.now)
            → HasPut cover (cells_from at (length bytes.now) bytes.now) self.old self.new) }
    {
        if self.goes_on(at) {
            return self.lengthen(bytes);
        }
        self.end()?;
        self.begin(alloc, at, bytes)
    }

    /// Whether a place is the one behind what is open.
    fn goes_on(&self, at: Place) -> bool
        ensures { result ≡ goes_on_at self.now.front at }
    {
        match &self.front {
            Some(front) => goes_on(front, at),
            None => false,
        }
    }

    /// Puts bytes behind what is open.
    fn lengthen(&mut self, bytes: &[u8]) -> Result<(), Memory>
        ensures { OnOk result ((self.new.events.items ≡ self.old.events.items)
            × (self.new.front ≡ putting.longer self.old.front bytes.now)) }
    {
        if let Some(front) = self.front.take() {
            self.front = Some(longer(front, bytes)?);
        }
        Ok(())
    }

    /// Begins with bytes at a place, where nothing is open.
    fn begin(&mut self, alloc: Global, at: Place, bytes: &[u8]) -> Result<(), Memory>
        ensures { OnOk result ((self.new.events.items ≡ self.old.events.items)
            × (self.new.front ≡ Some (record { at = at; bytes = bytes.now }))) }
    {
        self.front = Some(Stretch {
            at,
            bytes: Bytes::copy_of(alloc, bytes)?,
        });
        Ok(())
    }

    /// Makes the Store of what is open.
    fn end(&mut self) -> Result<(), Memory>
        ensures { OnOk result (HasStored (list_of self.old.front) self.old self.new) }
    {
        if let Some(front) = self.front.take() {
            self.events.push(store_of(front))?;
        }
        Ok(())
    }
}

/// How many of so many bytes lie in an extent.
fn count_of(extent: Extent, most: usize) -> usize
    ensures { result ≡ min (bytes_of_extent extent) most }
{
    let count = match extent {
        Extent::Covered(count) => count,
        Extent::Bare(count) => count,
    };
    count.min(most as u64) as usize
}

/// Whether a place is the one behind a stretch.
fn goes_on(front: &Stretch, at: Place) -> bool
    ensures { result ≡ lone.goes_on front.now (record { place = at; byte = 0 }) }
{
    front.at.adapter == at.adapter
        && front.at.buffer == at.buffer
        && front.at.offset as usize + front.bytes.as_slice().len() == at.offset as usize
}

/// A stretch with more bytes behind it.
fn longer(stretch: Stretch, more: &[u8]) -> Result<Stretch, Memory>
    ensures { IfOk result (λ longer. longer ≡ record stretch { bytes = stretch.bytes ++ more.now }) }
{
    let mut bytes = stretch.bytes.into_vec();
    bytes.extend_from_slice(more)?;
    Ok(Stretch {
        at: stretch.at,
        bytes: Bytes::from(bytes),
    })
}

/// The Store of a stretch.
fn store_of(stretch: Stretch) -> Event
    ensures { result ≡ lone.store_event stretch }
{
    Event::Verb {
        by: 0,
        verb: Verb::Store {
            adapter: stretch.at.adapter,
            buffer: stretch.at.buffer,
            offset: stretch.at.offset,
            bytes: stretch.bytes,
        },
    }
}
