ghost use Rattle.std.specs.Prelude.{◌≡◌, ◌≤◌, length};
ghost use Rattle.ca_trace_lex.specs.Words.{Gives, GivesAs, all_in};
ghost use Rattle.ca_run_command.specs.Words as words;

use ca_base::limits::{MAX_ADAPTERS, MAX_DOMAINS};
use ca_base::{DomainId, Items};
use ca_trace_lex::{Pieces, Stop, domain_in};
use std::alloc::Global;

/// How many domains there may be.
const MOST: usize = MAX_ADAPTERS * MAX_DOMAINS as usize;

/// The domain that a word names.
fn domain_named(alloc: Global, word: &[u8]) -> Result<DomainId, Stop>
    ensures { Gives result (words.domain_named word.now) }
{
    let domain = domain_in(word)?;
    let spelled = format!(in alloc; "{domain}")?;
    if spelled.as_bytes() == word
        && usize::from(domain.adapter) < MAX_ADAPTERS
        && domain.domain < MAX_DOMAINS
    {
        Ok(domain)
    } else {
        Err(Stop::Outside)
    }
}

/// The domains that words name.
#[tactic(auto, using(ca_trace_lex::proofs::ListLemmas::reading))]
fn domains_named(alloc: Global, mut parts: Pieces) -> Result<Vec<DomainId>, Stop>
    ensures { GivesAs (λ list. list.items) result (all_in words.domain_named parts.entry) }
{
    let mut list = Vec::new(alloc);
    while !parts.is_empty() {
        let domain = domain_named(alloc, parts.take_word()?)?;
        list.push(domain)?;
    }
    Ok(list)
}

/// Whether none of them stands there twice.
fn are_distinct(domains: &[DomainId]) -> bool
    requires { length domains.now ≤ 128 }
    ensures { result ≡ words.are_distinct domains.now }
{
    match domains {
        [] => true,
        [first, rest @ ..] => !rest.contains(first) && are_distinct(rest),
    }
}

/// The group that a text names: distinct domains, with commas between.
#[tactic(auto, unfolding(crate::specs::Words::group_named))]
pub(crate) fn group_named(alloc: Global, text: &[u8]) -> Result<Items<DomainId>, Stop>
    ensures { Gives result (words.group_named text.now) }
{
    let domains = domains_named(alloc, Pieces::of(b',', text))?;
    if domains.len() <= MOST && are_distinct(domains.as_slice()) {
        Ok(Items::from(domains))
    } else {
        Err(Stop::Outside)
    }
}
