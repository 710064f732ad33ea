ghost use Rattle.std.specs.List.{AllByRecursion, list_any};
ghost use Rattle.std.specs.Prelude.{◌≡◌, ◌+◌, ◌^◌, IfOk, OnOk, nat_le};
ghost use Rattle.ca_isolation.specs.Groups.{covered, group_of, is_granted_by};
ghost use Rattle.ca_keys.specs.Memory.{is_in};
ghost use Rattle.ca_keys.specs.declared.place.Place.{Place};
ghost use Rattle.ca_isolation.specs.Cover.{AreInReach, EndsInReach, GrantsInReach, covers};
ghost use Rattle.ca_isolation.specs.Covering as covering;
ghost use Rattle.ca_isolation.specs.Covering.{AddsPlaces, AddsPlacesOfEach, lies_within};

use crate::has_domain;
use ca_base::{DomainId, Memory, Run};
use ca_model::{History, Mark};
use std::alloc::Global;

/// How many bytes places can name in a buffer.
const REACH: u64 = 1 << 32;

/// The runs of all grants that a history ever gives to the group, each once. Those that end behind the last byte that a
/// place can name are left out.
pub(crate) fn cover_of(alloc: Global, group: &[DomainId], h: &History) -> Result<Vec<Run>, Memory>
    ensures reach { IfOk result (λ cover. AllByRecursion EndsInReach cover.items) }
    ensures places { IfOk result (λ cover. AreInReach h.now
        → (p : Place) → covers cover.items p ≡ covered (group_of group.now) h.now p) }
{
    let mut cover = Vec::new(alloc);
    let entries = h.as_slice();
    for entry in entries {
        add_marks(group, entry.marks.as_slice(), &mut cover)?;
    }
    Ok(cover)
}

/// Adds the runs that marks grant to the group.
fn add_marks(group: &[DomainId], marks: &[Mark], cover: &mut Vec<Run>) -> Result<(), Memory>
    ensures { OnOk result (AddsPlacesOfEach GrantsInReach (λ m p. is_granted_by (group_of group.now) p m) marks.now
        cover.old.items cover.new.items) }
{
    for mark in marks {
        add_runs(runs_granted(group, mark), cover)?;
    }
    Ok(())
}

/// The runs that a mark grants to the group.
fn runs_granted<'a>(group: &[DomainId], mark: &'a Mark) -> &'a [Run]
    ensures { result.now ≡ covering.runs_granted (group_of group.now) mark.now }
{
    match mark {
        Mark::Granted(grant) => {
            if has_domain(group, grant.domain) {
                grant.runs.as_slice()
            } else {
                &[]
            }
        }
        _ => &[],
    }
}

/// Adds runs, each where it ends in reach and lies within none that is there.
fn add_runs(runs: &[Run], cover: &mut Vec<Run>) -> Result<(), Memory>
    ensures { OnOk result (AddsPlacesOfEach EndsInReach is_in runs.now cover.old.items cover.new.items) }
{
    for run in runs {
        add_run(run, cover)?;
    }
    Ok(())
}

/// Adds a run, where it ends in reach and lies within none that is there.
fn add_run(run: &Run, cover: &mut Vec<Run>) -> Result<(), Memory>
    ensures { OnOk result (AddsPlaces (EndsInReach run.now) (is_in run.now) cover.old.items cover.new.items) }
{
    if !ends_in_reach(run) {
        return Ok(());
    }
    if is_within_any(run, cover.as_slice()) {
        return Ok(());
    }
    cover.push(*run)?;
    Ok(())
}

/// Whether a run ends among the bytes that places can name.
fn ends_in_reach(run: &Run) -> bool
    ensures { result ≡ nat_le (run.now.offset + run.now.length) (2 ^ 32) }
{
    u64::from(run.offset) + u64::from(run.length) <= REACH
}

/// Whether a run lies within one of others.
fn is_within_any(run: &Run, others: &[Run]) -> bool
    ensures { result ≡ list_any (lies_within run.now) others.now }
{
    others.iter().any(|other| is_within(run, other))
}

/// Whether a run lies within another.
fn is_within(run: &Run, other: &Run) -> bool
    ensures { result ≡ lies_within run.now other.now }
{
    run.adapter == other.adapter
        && run.buffer == other.buffer
        && other.offset <= run.offset
        && u64::from(run.offset) + u64::from(run.length)
            <= u64::from(other.offset) + u64::from(other.length)
}
