ghost use Rattle.std.specs.List.{AllByRecursion};
ghost use Rattle.std.specs.Prelude.{◌<◌};
ghost use Rattle.ca_keys.specs.Memory.{is_in};
ghost use Rattle.ca_isolation.specs.Cover.{EndsInReach, covers};
ghost use Rattle.ca_isolation.specs.Extents.{IsExtent};

use ca_base::Run;

/// Where a byte lies that may be behind the last that a place can name.
#[derive(Clone, Copy)]
pub(crate) struct Spot {
    pub adapter: u8,
    pub buffer: u16,
    pub offset: u64,
}

/// For how many bytes from a spot on all are covered, or none is.
#[derive(Clone, Copy)]
pub(crate) enum Extent {
    Covered(u64),
    Bare(u64),
}

/// How far what is so at a spot goes on there, by all runs that cover bytes.
pub(crate) fn extent_at(cover: &[Run], at: Spot) -> Extent
    requires { AllByRecursion EndsInReach cover.now }
    ensures { IsExtent (covers cover.now) at result }
{
    let mut bare = u64::MAX;
    for run in cover {
        match extent_by(run, at) {
            Extent::Covered(count) => return Extent::Covered(count),
            Extent::Bare(count) => bare = bare.min(count),
        }
    }
    Extent::Bare(bare)
}

/// The same by one run.
fn extent_by(run: &Run, at: Spot) -> Extent
    requires { EndsInReach run.now }
    ensures { IsExtent (is_in run.now) at result }
{
    if run.adapter != at.adapter || run.buffer != at.buffer {
        return Extent::Bare(u64::MAX);
    }
    let begin = u64::from(run.offset);
    let end = begin + u64::from(run.length);
    if at.offset < begin {
        Extent::Bare(begin - at.offset)
    } else if at.offset < end {
        Extent::Covered(end - at.offset)
    } else {
        Extent::Bare(u64::MAX)
    }
}
