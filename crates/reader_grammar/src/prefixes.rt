ghost use Rattle.std.specs.Prelude.{◌≡◌};
ghost use Rattle.task_model.specs.Terms.Host.{host_term};
ghost use Rattle.task_model.specs.Syntax.Meaning.{unary_expression};

use task_model::Host;

/// An operator before its operand.
#[derive(Clone, Copy, Debug, PartialEq, Eq)]
pub enum Prefix {
    Negative,
    Not,
    First,
    Second,
    Length,
}

impl Prefix {
    ghost use Rattle.reader_grammar.specs.Prefixes.{prefix_term};

    /// The expression of this operator and its operand.
    pub fn applied(self, operand: Box<Host>) -> Host
        ensures { host_term result ≡ unary_expression (prefix_term self) (host_term operand.value) }
    {
        match self {
            Prefix::Negative => Host::Neg(operand),
            Prefix::Not => Host::Not(operand),
            Prefix::First => Host::Fst(operand),
            Prefix::Second => Host::Snd(operand),
            Prefix::Length => Host::Len(operand),
        }
    }
}
