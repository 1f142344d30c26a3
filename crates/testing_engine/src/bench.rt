use crate::parts::step_in;
use crate::runs::{first_applied, first_started, main_started, settled, strode};
use observe_inputs::offers;
use shared_store::Store;
use std::alloc::Global;
use std::marker::Model;
use std::sync::ledger::Ledger;
use task_engine::{failing, test_next, test_side};
use task_evaluation::Engine;
use task_model::{
    Checked, Offer, OutOfMemory, Purse, Row, Sign, Steps, Stop, Tree, Value, copy_value, value_has,
};

/// A program with a store and, where a call has led to one, a tree that fits it over that store.
#[derive(Drop)]
pub struct Bench {
    engine: Engine,
    store: Store<Value>,
    tree: Option<Tree>,
}

impl Model for Bench {
    ghost use Rattle.testing_engine.specs.Standing.{Standing};

    ghost Value = { Unit {0} };

    ghost view = { λ b. tt };

    ghost invariant = { λ b. Standing b.engine b.store.list b.tree };
}

impl Bench {
    /// The program, with no values, no layer and no tree.
    pub fn new(alloc: Global, checked: Checked) -> Result<Bench, OutOfMemory> {
        let engine = Engine::new(alloc, checked)?;
        Ok(Bench {
            engine,
            store: Store::new(alloc),
            tree: None,
        })
    }

    /// As it was new.
    pub fn clear(&mut self) {
        self.tree = None;
        self.store = Store::new(self.engine.alloc());
    }

    pub fn tree(&self) -> Option<&Tree> {
        self.tree.as_ref()
    }

    pub fn values(&self) -> &[Value] {
        self.store.as_slice()
    }

    pub fn layers(&self) -> u64 {
        self.store.layers()
    }

    /// The present values become the newest layer.
    pub fn begin(&mut self) -> Result<(), OutOfMemory> {
        self.store.begin()
    }

    /// The newest layer is given up, if one stands.
    pub fn keep(&mut self) {
        if self.store.layers() > 0 {
            self.store.keep();
        }
    }

    /// The newest layer comes back, if one stands, and the tree goes.
    pub fn drop_layer(&mut self) {
        self.tree = None;
        if self.store.layers() > 0 {
            self.store.drop_layer();
        }
    }

    /// `main()` is evaluated, and normalised where that is asked for. None where the store has values.
    pub fn start_main(&mut self, is_normal: bool, purse: &mut Purse) -> Option<Result<(), Stop>> {
        self.tree = None;
        if !self.store.as_slice().is_empty() {
            return None;
        }
        match main_started(&self.engine, is_normal, &mut self.store, purse) {
            Ok(t) => {
                self.tree = Some(t);
                Some(Ok(()))
            }
            Err(stop) => Some(Err(stop)),
        }
    }

    /// The same of the first definition's task. None where it has parameters, too.
    pub fn start_first(&mut self, is_normal: bool, purse: &mut Purse) -> Option<Result<(), Stop>> {
        self.tree = None;
        if !self.store.as_slice().is_empty() {
            return None;
        }
        match first_started(&self.engine, is_normal, &mut self.store, purse) {
            None => None,
            Some(Ok(t)) => {
                self.tree = Some(t);
                Some(Ok(()))
            }
            Some(Err(stop)) => Some(Err(stop)),
        }
    }

    pub fn stride(&mut self, purse: &mut Purse) -> Option<Result<(), Stop>> {
        match self.tree.take() {
            None => None,
            Some(t) => match strode(&self.engine, t, &mut self.store, purse) {
                Ok(u) => {
                    self.tree = Some(u);
                    Some(Ok(()))
                }
                Err(stop) => Some(Err(stop)),
            },
        }
    }

    pub fn settle(&mut self, purse: &mut Purse) -> Option<Result<(), Stop>> {
        match self.tree.take() {
            None => None,
            Some(t) => match settled(&self.engine, t, &mut self.store, purse) {
                Ok(u) => {
                    self.tree = Some(u);
                    Some(Ok(()))
                }
                Err(stop) => Some(Err(stop)),
            },
        }
    }

    pub fn failing(&mut self, purse: &mut Purse) -> Option<Result<bool, Stop>> {
        match &self.tree {
            None => None,
            Some(t) => Some(failing(&self.engine, t, &mut self.store, purse)),
        }
    }

    /// The cont of the first step whose left part is an editor, applied to a value of that editor's type. None where there is no such
    /// step or the value has another type.
    pub fn apply(&mut self, v: &Value, purse: &mut Purse) -> Option<Result<(), Stop>> {
        let t = self.tree.take()?;
        match first_applied(&self.engine, &t, v, &mut self.store, purse) {
            None => None,
            Some(Ok(u)) => {
                self.tree = Some(u);
                Some(Ok(()))
            }
            Some(Err(stop)) => Some(Err(stop)),
        }
    }

    /// The test of that cont at a value.
    pub fn test_next<L: Ledger>(
        &mut self,
        v: &Value,
        budget: u32,
        steps: &mut Steps<L>,
    ) -> Option<Result<Sign, OutOfMemory>> {
        match &self.tree {
            None => None,
            Some(t) => {
                let step = step_in(t)?;
                let v = copy_value(v).ok()?;
                if !value_has(&v, step.takes) {
                    return None;
                }
                Some(test_next(&self.engine, step.cont, v, &mut self.store, budget, steps))
            }
        }
    }

    /// The test of a side of the tree, where that is a choice.
    pub fn test_side<L: Ledger>(
        &mut self,
        is_left: bool,
        budget: u32,
        steps: &mut Steps<L>,
    ) -> Option<Result<Sign, OutOfMemory>> {
        match &self.tree {
            Some(Tree::Xor(left, right)) => {
                let side = if is_left { left } else { right };
                Some(test_side(&self.engine, side, &mut self.store, budget, steps))
            }
            _ => None,
        }
    }
    /// The offers of the tree.
    pub fn offers<L: Ledger>(
        &mut self,
        budget: u32,
        steps: &mut Steps<L>,
    ) -> Option<Result<Row<Offer>, OutOfMemory>> {
        match &self.tree {
            None => None,
            Some(t) => Some(offers(&self.engine, t, &mut self.store, budget, steps)),
        }
    }
}
