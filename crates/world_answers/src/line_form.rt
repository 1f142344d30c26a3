/// The form of the lines of a script and of their answers.
#[derive(Clone, Copy, Debug, PartialEq, Eq)]
pub enum LineForm {
    /// Script lines, answered by lines of text (docs/FORMATS.md, "Script lines" and "Answers").
    Script,
    /// JSON (docs/FORMATS.md, "JSON").
    Json,
}
