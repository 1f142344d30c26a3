ghost use Rattle.std.specs.Prelude.{◌≡◌};

use crate::figures::Figures;
use host_eval::Definitions;
use task_model::TaskText;

/// What each text of a program comes to, by its number.
#[derive(Clone, Copy)]
pub(crate) struct Table<'t> {
    pub(crate) definitions: &'t Definitions,
    pub(crate) figures: &'t [Figures],
}

impl<'t> Table<'t> {
    ghost use Rattle.std.specs.Prelude.{◌≡◌};
    ghost use Rattle.stride_bound.specs.BoundTerms.{table_term, figures_at};

    /// Of a text; nothing where there is none.
    pub(crate) fn text(&self, number: usize) -> Figures
        ensures { result ≡ figures_at self.now.figures.now number }
    {
        match self.figures.get(number) {
            Some(figures) => *figures,
            None => Figures::nothing(),
        }
    }

    /// Of a body; nothing where there is none.
    pub(crate) fn body(&self, number: u32) -> Figures
        ensures { result ≡ (table_term self.now).body number }
    {
        let before = self.definitions.checked().program().defs.as_slice().len();
        match before.checked_add(number as usize) {
            Some(number) => self.text(number),
            None => Figures::nothing(),
        }
    }

    /// Of what a name is defined as; nothing where it isn't.
    pub(crate) fn definition(&self, name: &TaskText) -> Figures
        ensures { result ≡ (table_term self.now).definition name.now }
    {
        match self.definitions.first(name) {
            Some(found) => self.text(found.number),
            None => Figures::nothing(),
        }
    }
}
