ghost use Rattle.std.specs.Prelude.{◌≡◌, ◌+◌, ◌<◌, ◌^◌, IfOk, IfErr};
ghost use Rattle.task_model.specs.Terms.Host.{host_term, name_expr, read_expr, nil_expr, op_expr, pair_expr, let_expr, if_expr, case_expr};
ghost use Rattle.task_model.specs.Syntax.Meaning.{unary_expression};
ghost use Rattle.reader_grammar.specs.Prefixes.{prefix_term};

use crate::measured::Measured;
use crate::parts::Parts;
use crate::prefixes::Prefix;
use exact_reading::ParseStop;
use std::alloc::Global;
use std::collections::VecDeque;
use task_model::{Body, Host, Op, TaskText};

/// What was read, in a box, so that it is cheap to move and to let go, its levels, the place of its first token, the places of its nodes in
/// pre-order, and its bodies in the order in which their texts begin.
#[derive(Drop)]
pub struct Parsed<T: Drop> {
    pub term: Box<T>,
    pub levels: usize,
    pub start: u64,
    pub places: VecDeque<u64>,
    pub bodies: VecDeque<Body>,
}

/// The text of a name.
pub fn name_text(alloc: Global, name: &str) -> Result<TaskText, ParseStop>
    ensures text { IfOk result (λ r. r ≡ name.now) }
    ensures memory { IfErr result (λ e. e ≡ ParseStop.Memory) }
{
    match TaskText::of(alloc, name) {
        Ok(text) => Ok(text),
        Err(_) => Err(ParseStop::Memory),
    }
}

impl<T: Drop> Parsed<T> {
    ghost use Rattle.reader_grammar.specs.Parts.{parts_term, parts_of, both_parts};

    /// The term, and what is said of its parts where it is part of a node.
    pub fn into_parts(self) -> (Box<T>, Parts)
        ensures term { result.0 ≡ self.term }
        ensures levels { result.1.levels ≡ self.levels }
        ensures places { result.1.places ≡ self.places }
        ensures bodies { result.1.bodies ≡ self.bodies }
    {
        let parts = Parts {
            levels: self.levels,
            places: self.places,
            bodies: self.bodies,
        };
        (self.term, parts)
    }

    /// Both terms, and what is said of both where they are parts of one node.
    pub fn beside<U: Drop>(self, other: Parsed<U>) -> Result<(Box<T>, Box<U>, Parts), ParseStop>
        ensures first { IfOk result (λ r. r.0 ≡ self.term) }
        ensures second { IfOk result (λ r. r.1 ≡ other.term) }
        ensures parts { IfOk result (λ r. parts_term r.2 ≡ both_parts (parts_of self) (parts_of other)) }
        ensures memory { IfErr result (λ e. e ≡ ParseStop.Memory) }
    {
        let (first, parts) = self.into_parts();
        let (second, others) = other.into_parts();
        Ok((first, second, parts.and(others)?))
    }

    /// This part in parentheses, the first of which stands here.
    pub fn group(self, place: u64) -> Parsed<T>
        requires { self.levels + 1 < 2 ^ 64 }
        ensures term { result.term ≡ self.term }
        ensures levels { result.levels ≡ 1 + self.levels }
        ensures start { result.start ≡ place }
        ensures places { result.places ≡ self.places }
        ensures bodies { result.bodies ≡ self.bodies }
    {
        Parsed {
            levels: 1 + self.levels,
            start: place,
            ..self
        }
    }
}

impl Parsed<Host> {
    ghost use Rattle.reader_grammar.specs.Parts.{measured, shown_host, leaf, over_type, over_one, over_two, over_three};

    /// A node without parts.
    pub fn leaf(alloc: Global, term: Host, place: u64) -> Result<Parsed<Host>, ParseStop>
        ensures shown { IfOk result (λ r. shown_host r ≡ leaf (host_term term) place) }
        ensures memory { IfErr result (λ e. e ≡ ParseStop.Memory) }
    {
        Parts::none(alloc).node(alloc, term, place)
    }

    /// An operand behind an operator, which stands here.
    pub fn prefixed(
        self,
        alloc: Global,
        prefix: Prefix,
        place: u64,
    ) -> Result<Parsed<Host>, ParseStop>
        requires { self.levels + 1 < 2 ^ 64 }
        ensures shown { IfOk result (λ r. shown_host r ≡ over_one (unary_expression (prefix_term prefix)) place (shown_host self)) }
        ensures memory { IfErr result (λ e. e ≡ ParseStop.Memory) }
    {
        let (operand, parts) = self.into_parts();
        parts.node(alloc, prefix.applied(operand), place)
    }

    /// Two operands with an operator between them.
    pub fn operated(
        self,
        alloc: Global,
        op: Op,
        right: Parsed<Host>,
    ) -> Result<Parsed<Host>, ParseStop>
        requires left { self.levels + 1 < 2 ^ 64 }
        requires right { right.levels + 1 < 2 ^ 64 }
        ensures shown { IfOk result (λ r. shown_host r ≡ over_two (op_expr op) self.start (shown_host self) (shown_host right)) }
        ensures memory { IfErr result (λ e. e ≡ ParseStop.Memory) }
    {
        let start = self.start;
        let (left, right, parts) = self.beside(right)?;
        parts.node(alloc, Host::Op { op, left, right }, start)
    }

    /// A pair, whose parenthesis stands here.
    pub fn pair(
        self,
        alloc: Global,
        place: u64,
        second: Parsed<Host>,
    ) -> Result<Parsed<Host>, ParseStop>
        requires left { self.levels + 1 < 2 ^ 64 }
        requires right { second.levels + 1 < 2 ^ 64 }
        ensures shown { IfOk result (λ r. shown_host r ≡ over_two pair_expr place (shown_host self) (shown_host second)) }
        ensures memory { IfErr result (λ e. e ≡ ParseStop.Memory) }
    {
        let (first, second, parts) = self.beside(second)?;
        parts.node(alloc, Host::Pair(first, second), place)
    }

    /// A name alone.
    pub fn named(alloc: Global, name: &str, place: u64) -> Result<Parsed<Host>, ParseStop>
        ensures shown { IfOk result (λ r. shown_host r ≡ leaf (name_expr name.now) place) }
        ensures memory { IfErr result (λ e. e ≡ ParseStop.Memory) }
    {
        let name = name_text(alloc, name)?;
        Parsed::leaf(alloc, Host::Name(name), place)
    }

    /// What stands at a reference, whose `!` stands here.
    pub fn content(alloc: Global, name: &str, place: u64) -> Result<Parsed<Host>, ParseStop>
        ensures shown { IfOk result (λ r. shown_host r ≡ leaf (read_expr name.now) place) }
        ensures memory { IfErr result (λ e. e ≡ ParseStop.Memory) }
    {
        let name = name_text(alloc, name)?;
        Parsed::leaf(alloc, Host::Read(name), place)
    }

    /// The empty list of items of this type, whose `nil` stands here.
    pub fn nil(alloc: Global, item: Measured, place: u64) -> Result<Parsed<Host>, ParseStop>
        requires { item.levels + 1 < 2 ^ 64 }
        ensures shown { IfOk result (λ r. shown_host r ≡ over_type nil_expr place (measured item)) }
        ensures memory { IfErr result (λ e. e ≡ ParseStop.Memory) }
    {
        let (item, parts) = item.into_parts(alloc);
        parts.node(alloc, Host::Nil(item), place)
    }

    /// `let`, which stands here, of this value.
    pub fn let_in(
        self,
        alloc: Global,
        place: u64,
        name: &str,
        rest: Parsed<Host>,
    ) -> Result<Parsed<Host>, ParseStop>
        requires left { self.levels + 1 < 2 ^ 64 }
        requires right { rest.levels + 1 < 2 ^ 64 }
        ensures shown { IfOk result (λ r. shown_host r ≡ over_two (let_expr name.now) place (shown_host self) (shown_host rest)) }
        ensures memory { IfErr result (λ e. e ≡ ParseStop.Memory) }
    {
        let name = name_text(alloc, name)?;
        let (bound, rest, parts) = self.beside(rest)?;
        parts.node(alloc, Host::Let { name, bound, rest }, place)
    }

    /// `if`, which stands here, of this test.
    pub fn if_then(
        self,
        alloc: Global,
        place: u64,
        yes: Parsed<Host>,
        no: Parsed<Host>,
    ) -> Result<Parsed<Host>, ParseStop>
        requires test { self.levels + 1 < 2 ^ 64 }
        requires left { yes.levels + 1 < 2 ^ 64 }
        requires right { no.levels + 1 < 2 ^ 64 }
        ensures shown { IfOk result (λ r. shown_host r ≡ over_three if_expr place (shown_host self) (shown_host yes) (shown_host no)) }
        ensures memory { IfErr result (λ e. e ≡ ParseStop.Memory) }
    {
        let (test, parts) = self.into_parts();
        let (yes, no, others) = yes.beside(no)?;
        let host = Host::If { test, yes, no };
        parts.and(others)?.node(alloc, host, place)
    }

    /// `case`, which stands here, of this list, with the names of its head and tail.
    pub fn case_of(
        self,
        alloc: Global,
        place: u64,
        empty: Parsed<Host>,
        head: &str,
        tail: &str,
        more: Parsed<Host>,
    ) -> Result<Parsed<Host>, ParseStop>
        requires list { self.levels + 1 < 2 ^ 64 }
        requires left { empty.levels + 1 < 2 ^ 64 }
        requires right { more.levels + 1 < 2 ^ 64 }
        ensures shown { IfOk result (λ r. shown_host r ≡ over_three (λ l a b. case_expr l a head.now tail.now b) place (shown_host self)
            (shown_host empty) (shown_host more)) }
        ensures memory { IfErr result (λ e. e ≡ ParseStop.Memory) }
    {
        let head = name_text(alloc, head)?;
        let tail = name_text(alloc, tail)?;
        let (list, parts) = self.into_parts();
        let (empty, more, others) = empty.beside(more)?;
        let host = Host::Case {
            list,
            empty,
            head,
            tail,
            more,
        };
        parts.and(others)?.node(alloc, host, place)
    }
}
