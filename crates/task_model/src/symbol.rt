ghost use Rattle.std.specs.Prelude.{◌≡◌};
ghost use Rattle.task_model.specs.Syntax.Spelling.{symbol_spelling};

/// A sign, named for what it is for.
#[derive(Clone, Copy, Debug, PartialEq, Eq)]
pub enum Symbol {
    Open,
    Close,
    OpenBracket,
    CloseBracket,
    Comma,
    Colon,
    Assign,
    Cons,
    Semicolon,
    Dot,
    Define,
    Equal,
    NotEqual,
    Bang,
    Less,
    LessEqual,
    Greater,
    GreaterEqual,
    Plus,
    Join,
    Minus,
    Arrow,
    Star,
    Or,
    Bar,
    And,
    InternalStep,
    UserStep,
    Pair,
    InternalChoice,
    ExternalChoice,
}

impl Symbol {
    /// The bytes of the symbol (docs/LANGUAGE.md, "Tokens").
    pub fn spelling(self) -> &'static str
        ensures { result.now ≡ symbol_spelling self }
    {
        match self {
            Symbol::Open => "(",
            Symbol::Close => ")",
            Symbol::OpenBracket => "[",
            Symbol::CloseBracket => "]",
            Symbol::Comma => ",",
            Symbol::Colon => ":",
            Symbol::Assign => ":=",
            Symbol::Cons => "::",
            Symbol::Semicolon => ";",
            Symbol::Dot => ".",
            Symbol::Define => "=",
            Symbol::Equal => "==",
            Symbol::NotEqual => "!=",
            Symbol::Bang => "!",
            Symbol::Less => "<",
            Symbol::LessEqual => "<=",
            Symbol::Greater => ">",
            Symbol::GreaterEqual => ">=",
            Symbol::Plus => "+",
            Symbol::Join => "++",
            Symbol::Minus => "-",
            Symbol::Arrow => "->",
            Symbol::Star => "*",
            Symbol::Or => "||",
            Symbol::Bar => "|",
            Symbol::And => "&&",
            Symbol::InternalStep => ">>=",
            Symbol::UserStep => ">>?",
            Symbol::Pair => "<&>",
            Symbol::InternalChoice => "<|>",
            Symbol::ExternalChoice => "<?>",
        }
    }
}
