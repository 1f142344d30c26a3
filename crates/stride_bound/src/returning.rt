ghost use Rattle.std.specs.Prelude.{◌≡◌, ◌↔◌, ◌<◌, true, IsTrue, IfOk};
ghost use Rattle.stride_bound.specs.TextLinks.{LeadsTo, LeadsBack};
ghost use Rattle.stride_bound.specs.TextMarks.{LinksAreInside};
ghost use Rattle.stride_bound.specs.Ranks.{NeverRise, rank_at};

use crate::links::TextLink;
use crate::orders::Orders;
use crate::reaching::leads;
use std::alloc::Global;
use task_model::OutOfMemory;

/// Whether some tight link leads back to the text that it is in. Ranks that no link raises show at once that most don't; the answer
/// doesn't depend on the orders.
pub(crate) fn leads_back(
    alloc: Global,
    links: &[TextLink],
    orders: &Orders,
) -> Result<bool, OutOfMemory>
    ensures { IfOk result (λ yes. IsTrue yes ↔ LeadsBack links.now) }
{
    let count = count_of(links)?;
    let steady = never_rise(links, orders.ranks.as_slice());
    for link in links {
        if returns(alloc, links, count, orders, steady, link)? {
            return Ok(true);
        }
    }
    Ok(false)
}

// Whether this link is tight and leads back to the text that it is in.
fn returns(
    alloc: Global,
    links: &[TextLink],
    count: usize,
    orders: &Orders,
    steady: bool,
    link: &TextLink,
) -> Result<bool, OutOfMemory>
    requires within { LinksAreInside count links.now }
    requires start { link.now.to < count }
    requires steady { IsTrue steady → NeverRise links.now orders.now.ranks.items }
    ensures { IfOk result (λ yes. IsTrue yes ↔ (link.now.tight ≡ true × LeadsTo links.now link.now.to link.now.from)) }
{
    if !link.tight {
        return Ok(false);
    }
    let ranks = orders.ranks.as_slice();
    if steady && rank(ranks, link.to) < rank(ranks, link.from) {
        return Ok(false);
    }
    leads(
        alloc,
        links,
        count,
        orders.links.as_slice(),
        link.to,
        link.from,
    )
}

// A number above those of all texts of the links.
fn count_of(links: &[TextLink]) -> Result<usize, OutOfMemory>
    ensures { IfOk result (λ count. LinksAreInside count links.now) }
{
    let mut most: usize = 0;
    for link in links {
        most = most.max(link.from).max(link.to);
    }
    match most.checked_add(1) {
        Some(count) => Ok(count),
        None => Err(OutOfMemory),
    }
}

// The rank of a text.
fn rank(ranks: &[usize], number: usize) -> usize
    ensures { result ≡ rank_at ranks.now number }
{
    match ranks.get(number) {
        Some(rank) => *rank,
        None => 0,
    }
}

// Whether no link leads to a text of a higher rank.
fn never_rise(links: &[TextLink], ranks: &[usize]) -> bool
    ensures { IsTrue result → NeverRise links.now ranks.now }
{
    for link in links {
        if rank(ranks, link.from) < rank(ranks, link.to) {
            return false;
        }
    }
    true
}
