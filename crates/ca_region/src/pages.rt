ghost use Rattle.std.specs.Prelude.{◌≡◌, ◌+◌, ◌-◌, ◌*◌, ◌/◌, ◌%◌, ◌<◌, ◌≤◌, length, map, min, None, IfOk};
ghost use Rattle.std.specs.List.{list_any};
ghost use Rattle.ca_base.specs.declared.limits.TheConstants.{ATOMIC_BYTES};
ghost use Rattle.ca_base.specs.Grants.{page_run};
ghost use Rattle.ca_keys.specs.Memory.{cut, places_count, run_part};
ghost use Rattle.ca_base.specs.objects.Region.{has_repeat, passes_end};
ghost use Rattle.ca_region.specs.Span.{runs_of_span};

use ca_base::limits::{MAX_PAGES, PAGE_BYTES};
use ca_base::{Memory, Run, Runs, Span};
use std::alloc::Global;

/// The part of a page with at most `count` bytes, without `skip` at its front.
pub fn page_part(adapter: u8, buffer: u16, page: u16, skip: u32, count: u32) -> Run
    requires { skip < PAGE_BYTES }
    ensures { result ≡ run_part (page_run adapter buffer page) skip (min count (PAGE_BYTES - skip)) }
{
    Run {
        adapter,
        buffer,
        offset: u32::from(page) * PAGE_BYTES + skip,
        length: count.min(PAGE_BYTES - skip),
    }
}

/// The runs of pages, cut to `count` bytes without `skip` at their front.
pub fn page_parts(
    alloc: Global,
    adapter: u8,
    buffer: u16,
    pages: &[u16],
    skip: u32,
    count: u32,
) -> Result<Runs, Memory>
    requires { skip < PAGE_BYTES }
    ensures count { IfOk result (λ runs. skip + count ≤ length pages.now * PAGE_BYTES → places_count runs ≡ count) }
    ensures places { IfOk result (λ runs. runs ≡ cut skip count (map (page_run adapter buffer) pages.now)) }
{
    let needed = (u64::from(skip) + u64::from(count)).div_ceil(u64::from(PAGE_BYTES));
    let mut runs = Vec::with_capacity(alloc, needed as usize)?;
    let mut skipped = skip;
    let mut left = count;
    for page in pages {
        if left == 0 {
            break;
        }
        let part = page_part(adapter, buffer, *page, skipped, left);
        runs.push(part)?;
        left -= part.length;
        skipped = 0;
    }
    Ok(Runs::from(runs))
}

/// Where `touch` bytes of pages lie, behind `begin` bytes. They are at most those of a page, so they lie in two pages
/// at most.
#[inline(always)]
pub fn page_span(adapter: u8, buffer: u16, pages: &[u16], begin: u64, touch: u32) -> Span
    requires some { 0 < touch }
    requires few { touch ≤ PAGE_BYTES }
    requires held { begin + touch ≤ length pages.now * PAGE_BYTES }
    ensures count { places_count (runs_of_span result) ≡ touch }
    ensures places { runs_of_span result ≡ cut begin touch (map (page_run adapter buffer) pages.now) }
    ensures whole { begin % ATOMIC_BYTES ≡ 0 → touch ≤ ATOMIC_BYTES → result.second ≡ None }
{
    let (index, skip) = page_of(begin);
    let first = page_part(adapter, buffer, pages[index], skip, touch);
    let rest = touch - first.length;
    let second = if rest == 0 {
        None
    } else {
        Some(page_part(adapter, buffer, pages[index + 1], 0, rest))
    };
    Span { first, second }
}

/// Where `count` bytes of pages lie, behind `begin` bytes.
pub fn page_runs(
    alloc: Global,
    adapter: u8,
    buffer: u16,
    pages: &[u16],
    begin: u64,
    count: u32,
) -> Result<Runs, Memory>
    requires { begin + count ≤ length pages.now * PAGE_BYTES }
    ensures count { IfOk result (λ runs. places_count runs ≡ count) }
    ensures places { IfOk result (λ runs. runs ≡ cut begin count (map (page_run adapter buffer) pages.now)) }
{
    let (index, skip) = page_of(begin);
    page_parts(alloc, adapter, buffer, &pages[index..], skip, count)
}

// The index of the page in which a byte lies, and the bytes before it there.
fn page_of(begin: u64) -> (usize, u32)
    ensures index { result.0 ≡ begin / PAGE_BYTES }
    ensures skip { result.1 ≡ begin % PAGE_BYTES }
{
    let page = u64::from(PAGE_BYTES);
    ((begin / page) as usize, (begin % page) as u32)
}

/// Whether a byte of these parts of pages lies behind the end of a buffer.
pub fn pages_pass_end(
    adapter: u8,
    buffer: u16,
    buffer_length: u32,
    pages: &[u16],
    skip: u32,
    count: u32,
) -> bool
    requires { skip < PAGE_BYTES }
    ensures { result ≡ list_any (passes_end buffer_length) (cut skip count (map (page_run adapter buffer) pages.now)) }
{
    let mut skipped = skip;
    let mut left = count;
    for page in pages {
        if left == 0 {
            return false;
        }
        let part = page_part(adapter, buffer, *page, skipped, left);
        if buffer_length < part.offset + part.length {
            return true;
        }
        left -= part.length;
        skipped = 0;
    }
    false
}

/// Whether a page stands twice in the list. A buffer has at most `MAX_PAGES` pages, so a mark for each of these is all
/// that a list of pages of a buffer needs; a page behind them is looked for.
pub fn repeats(pages: &[u16]) -> bool
    ensures { result ≡ has_repeat pages.now }
{
    let mut seen = [false; MAX_PAGES as usize];
    for i in (0..pages.len()).rev() {
        let page = pages[i];
        let again = if page < MAX_PAGES {
            seen[usize::from(page)]
        } else {
            pages[i + 1..].contains(&page)
        };
        if again {
            return true;
        }
        if page < MAX_PAGES {
            seen[usize::from(page)] = true;
        }
    }
    false
}
