use std::marker::Model;

/// The two texts of a fragment: the terminal line, and the HTML text.
#[derive(Drop)]
pub(crate) struct Texts {
    pub(crate) line: String,
    pub(crate) html: String,
}

impl Model for Texts {
    ghost use Rattle.std.specs.Prelude.{string_bytes};
    ghost use Rattle.html_pages.specs.Fragments.{FragmentTerm};

    ghost Value = { FragmentTerm };

    ghost view = { λ t. record { line = string_bytes t.line; html = string_bytes t.html } };
}
