ghost use Rattle.std.specs.Prelude.{◌≡◌, ◌↔◌, ℕ, ◌<◌, true, false, length, slice_set, replicate, IsTrue, IfOk};
ghost use Rattle.stride_bound.specs.TextLinks.{LeadsTo};
ghost use Rattle.stride_bound.specs.TextMarks.{mark_at, unmarked, LinksAreInside, IsSound, MarksAreClosed};

use crate::links::TextLink;
use std::alloc::Global;
use task_model::OutOfMemory;

/// Whether a text leads to another one. The hints are numbers of links, in an order in which they are well looked at first; the answer
/// doesn't depend on them.
pub(crate) fn leads(
    alloc: Global,
    links: &[TextLink],
    count: usize,
    hints: &[usize],
    from: usize,
    to: usize,
) -> Result<bool, OutOfMemory>
    requires within { LinksAreInside count links.now }
    requires start { from < count }
    ensures { IfOk result (λ yes. IsTrue yes ↔ LeadsTo links.now from to) }
{
    let mut marked = unmarked_texts(alloc, count)?;
    marked[from] = true;
    for number in hints {
        if let Some(link) = links.get(*number) {
            spread(link, &mut marked);
        }
    }
    while spread_all(links, &mut marked) {}
    Ok(is_marked(marked.as_slice(), to))
}

// No text is marked.
fn unmarked_texts(alloc: Global, count: usize) -> Result<Vec<bool>, OutOfMemory>
    ensures { IfOk result (λ marked. marked.items ≡ replicate count false) }
{
    Ok(vec![in alloc; false; count]?)
}

// Whether a text is marked.
fn is_marked(marked: &[bool], number: usize) -> bool
    ensures { result ≡ mark_at marked.now number }
{
    match marked.get(number) {
        Some(mark) => *mark,
        None => false,
    }
}

// Marks the end of a link whose text is marked; whether it wasn't.
fn spread(link: &TextLink, marked: &mut Vec<bool>) -> bool
    requires { link.now.to < length marked.old.items }
    ensures marks { result ≡ true → mark_at marked.old.items link.now.from ≡ true × mark_at marked.old.items link.now.to ≡ false
        × (marked.new.items ≡ slice_set marked.old.items link.now.to true) }
    ensures leaves { result ≡ false → (marked.new.items ≡ marked.old.items)
        × (mark_at marked.old.items link.now.from ≡ true → mark_at marked.old.items link.now.to ≡ true) }
{
    if !is_marked(marked.as_slice(), link.from) || is_marked(marked.as_slice(), link.to) {
        return false;
    }
    marked[link.to] = true;
    true
}

// Does so at each link; whether some end wasn't marked.
fn spread_all(links: &[TextLink], marked: &mut Vec<bool>) -> bool
    requires { LinksAreInside (length marked.old.items) links.now }
    ensures long { length marked.new.items ≡ length marked.old.items }
    ensures sound { (s : ℕ) → IsSound links.now s marked.old.items → IsSound links.now s marked.new.items }
    ensures kept { (n : ℕ) → mark_at marked.old.items n ≡ true → mark_at marked.new.items n ≡ true }
    ensures falls { result ≡ true → unmarked marked.new.items < unmarked marked.old.items }
    ensures closed { result ≡ false → (marked.new.items ≡ marked.old.items) × MarksAreClosed links.now marked.new.items }
{
    let mut changed = false;
    for link in links {
        if spread(link, marked) {
            changed = true;
        }
    }
    changed
}
