ghost use Rattle.std.specs.Prelude.{◌≡◌, List, true};
ghost use Rattle.task_model.specs.Terms.Text.{Text};
ghost use Rattle.task_model.specs.Terms.Basic.{BasicTerm};
ghost use Rattle.task_model.specs.Terms.Value.{ValueTerm};
ghost use Rattle.task_model.specs.Syntax.Literal.{basic_text};
ghost use Rattle.task_model.specs.Showing.Page.{path_text};
ghost use Rattle.task_model.specs.Showing.Html.{html_escaped, shown_value};
ghost use Rattle.task_model.specs.declared.input.Turn.{Turn};
ghost use Rattle.html_pages.specs.Escaping.{is_inert};

/// Nothing that a program or a person writes is read as markup: what the field of an editor shows, and what else of a widget goes into its
/// fragment, the name of its type and its path.
pub fn nothing_escapes()
    ensures texts { (t : Text) → is_inert (html_escaped t) ≡ true }
    ensures values { (b : BasicTerm) (v : ValueTerm) → is_inert (shown_value b v) ≡ true }
    ensures names { (b : BasicTerm) → is_inert (basic_text b) ≡ true }
    ensures paths { (path : List Turn) → is_inert (path_text path) ≡ true }
{}
