ghost use Rattle.std.specs.Prelude.{◌≡◌, ◌&&◌, false, true, [], ◌∷◌, IfOk};
ghost use Rattle.task_model.specs.Running.Address.{Address, into_first, into_left, into_second};
ghost use Rattle.kept_nodes.specs.KeptMarks.{told};

use std::alloc::Global;
use task_model::{OutOfMemory, boxed};

/// What an event kept of a tree, from its root down.
#[derive(Drop)]
pub enum Marks {
    /// The node and all below it.
    Whole,
    /// Neither the node nor anything below it.
    Bare,
    /// Not the step. Of its left part this.
    Step(Box<Marks>),
    /// Not the pair or the choice. Of its parts these.
    Pair(Box<Marks>, Box<Marks>),
}

impl Marks {
    /// Whether the node and all below it are kept.
    pub fn is_whole(&self) -> bool
        ensures { result ≡ told self.now [] }
    {
        match self {
            Marks::Whole => true,
            _ => false,
        }
    }

    /// What is kept of the left part of a step, or of the first part of a pair or a choice.
    pub fn first(&self) -> &Marks
        ensures left { (a : Address) → told result.now a ≡ told self.now (into_left ∷ a) }
        ensures first { (a : Address) → told result.now a ≡ told self.now (into_first ∷ a) }
    {
        match self {
            Marks::Whole => self,
            Marks::Bare => self,
            Marks::Step(part) => part,
            Marks::Pair(first, _) => first,
        }
    }

    /// What is kept of the second part of a pair or a choice.
    pub fn second(&self) -> &Marks
        ensures { (a : Address) → told result.now a ≡ told self.now (into_second ∷ a) }
    {
        match self {
            Marks::Whole => self,
            Marks::Bare => self,
            Marks::Step(part) => part,
            Marks::Pair(_, second) => second,
        }
    }

    // Whether nothing of the node and of what is below it is kept.
    fn is_bare(&self) -> bool
        ensures { result ≡ true → (a : Address) → told self.now a ≡ false }
    {
        match self {
            Marks::Bare => true,
            _ => false,
        }
    }

    /// The marks of a step of those of its left part. It is kept where its own stays, too.
    pub(crate) fn of_step(alloc: Global, stays: bool, part: Marks) -> Result<Marks, OutOfMemory>
        ensures own { IfOk result (λ m. told m [] ≡ (stays && told part [])) }
        ensures left { IfOk result (λ m. (a : Address) → told m (into_left ∷ a) ≡ told part a) }
    {
        if stays && part.is_whole() {
            return Ok(Marks::Whole);
        }
        if part.is_bare() {
            return Ok(Marks::Bare);
        }
        Ok(Marks::Step(boxed(alloc, part)?))
    }

    /// The marks of a pair or a choice of those of its parts. It is kept where it stays itself, too.
    pub(crate) fn of_pair(
        alloc: Global,
        stays: bool,
        first: Marks,
        second: Marks,
    ) -> Result<Marks, OutOfMemory>
        ensures own { IfOk result (λ m. told m [] ≡ (stays && told first [] && told second [])) }
        ensures first { IfOk result (λ m. (a : Address) → told m (into_first ∷ a) ≡ told first a) }
        ensures second { IfOk result (λ m. (a : Address) → told m (into_second ∷ a) ≡ told second a) }
    {
        if stays && first.is_whole() && second.is_whole() {
            return Ok(Marks::Whole);
        }
        if first.is_bare() && second.is_bare() {
            return Ok(Marks::Bare);
        }
        let first = boxed(alloc, first)?;
        Ok(Marks::Pair(first, boxed(alloc, second)?))
    }
}
