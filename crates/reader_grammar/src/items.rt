ghost use Rattle.std.specs.Prelude.{◌≡◌, ◌+◌, ◌<◌, ◌^◌, [], IfOk, IfErr};
ghost use Rattle.task_model.specs.Terms.Host.{call_expr, list_expr, as_exprs};

use crate::joining::joined;
use crate::parsed::{Parsed, name_text};
use crate::parts::Parts;
use exact_reading::ParseStop;
use std::alloc::Global;
use std::collections::VecDeque;
use task_model::{Host, Row};

/// Arguments or elements, the most levels of one of them, and the places of their nodes in pre-order.
#[derive(Drop)]
pub struct Items {
    pub list: Row<Host>,
    pub levels: usize,
    pub places: VecDeque<u64>,
}

impl Items {
    ghost use Rattle.reader_grammar.specs.Parts.{shown_host, shown_items, no_items, one_item, more_items, over_list};

    /// No items.
    pub fn none(alloc: Global) -> Items
        ensures { shown_items result ≡ no_items }
    {
        Items {
            list: Row::new(alloc),
            levels: 0,
            places: VecDeque::new(alloc),
        }
    }

    /// One item.
    pub fn one(alloc: Global, first: Parsed<Host>) -> Result<Items, ParseStop>
        ensures shown { IfOk result (λ r. shown_items r ≡ one_item (shown_host first)) }
        ensures memory { IfErr result (λ e. e ≡ ParseStop.Memory) }
    {
        let mut list = Row::new(alloc);
        if list.push(Box::into_inner(first.term)).is_err() {
            return Err(ParseStop::Memory);
        }
        Ok(Items {
            list,
            levels: first.levels,
            places: first.places,
        })
    }

    /// These items, and one more behind them.
    pub fn and(self, next: Parsed<Host>) -> Result<Items, ParseStop>
        ensures shown { IfOk result (λ r. shown_items r ≡ more_items (shown_items self) (shown_host next)) }
        ensures memory { IfErr result (λ e. e ≡ ParseStop.Memory) }
    {
        let levels = self.levels.max(next.levels);
        let places = joined(self.places, next.places)?;
        let mut list = self.list;
        if list.push(Box::into_inner(next.term)).is_err() {
            return Err(ParseStop::Memory);
        }
        Ok(Items {
            list,
            levels,
            places,
        })
    }

    /// The items, and what is said of them where they are parts of a node.
    pub fn into_parts(self, alloc: Global) -> (Row<Host>, Parts)
        ensures list { result.0 ≡ self.list }
        ensures levels { result.1.levels ≡ self.levels }
        ensures places { result.1.places ≡ self.places }
        ensures bodies { result.1.bodies.items ≡ [] }
    {
        let parts = Parts {
            levels: self.levels,
            places: self.places,
            bodies: VecDeque::new(alloc),
        };
        (self.list, parts)
    }

    /// The list of these elements, whose bracket stands here.
    #[tactic(auto, using(crate::proofs::RowTerms::list_term))]
    pub fn elements(self, alloc: Global, place: u64) -> Result<Parsed<Host>, ParseStop>
        requires { self.levels + 1 < 2 ^ 64 }
        ensures shown { IfOk result (λ r. shown_host r ≡ over_list (λ l. list_expr (as_exprs l)) place (shown_items self)) }
        ensures memory { IfErr result (λ e. e ≡ ParseStop.Memory) }
    {
        let (list, parts) = self.into_parts(alloc);
        parts.node(alloc, Host::List(list), place)
    }

    /// A call with these arguments, whose name stands here.
    pub fn call(self, alloc: Global, name: &str, place: u64) -> Result<Parsed<Host>, ParseStop>
        requires { self.levels + 1 < 2 ^ 64 }
        ensures shown { IfOk result (λ r. shown_host r ≡ over_list (λ l. call_expr name.now (as_exprs l)) place (shown_items self)) }
        ensures memory { IfErr result (λ e. e ≡ ParseStop.Memory) }
    {
        let name = name_text(alloc, name)?;
        let (args, parts) = self.into_parts(alloc);
        parts.node(alloc, Host::Call { name, args }, place)
    }
}
