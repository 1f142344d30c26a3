ghost use Rattle.std.specs.Prelude.{◌≡◌};
ghost use Rattle.task_model.specs.Syntax.Spelling.{keyword_spelling};

/// A word that is no name.
#[derive(Clone, Copy, Debug, PartialEq, Eq)]
pub enum Keyword {
    Fun,
    Task,
    Unit,
    Bool,
    Int,
    Text,
    Ref,
    Let,
    In,
    If,
    Then,
    Else,
    Case,
    Of,
    New,
    Edit,
    Enter,
    Share,
    Fail,
    True,
    False,
    Not,
    Fst,
    Snd,
    Len,
    Quot,
    Rem,
    Nil,
}

impl Keyword {
    /// The letters of the keyword (docs/LANGUAGE.md, "Tokens").
    pub fn spelling(self) -> &'static str
        ensures { result.now ≡ keyword_spelling self }
    {
        match self {
            Keyword::Fun => "fun",
            Keyword::Task => "task",
            Keyword::Unit => "unit",
            Keyword::Bool => "bool",
            Keyword::Int => "int",
            Keyword::Text => "text",
            Keyword::Ref => "ref",
            Keyword::Let => "let",
            Keyword::In => "in",
            Keyword::If => "if",
            Keyword::Then => "then",
            Keyword::Else => "else",
            Keyword::Case => "case",
            Keyword::Of => "of",
            Keyword::New => "new",
            Keyword::Edit => "edit",
            Keyword::Enter => "enter",
            Keyword::Share => "share",
            Keyword::Fail => "fail",
            Keyword::True => "true",
            Keyword::False => "false",
            Keyword::Not => "not",
            Keyword::Fst => "fst",
            Keyword::Snd => "snd",
            Keyword::Len => "len",
            Keyword::Quot => "quot",
            Keyword::Rem => "rem",
            Keyword::Nil => "nil",
        }
    }
}
