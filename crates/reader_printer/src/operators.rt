ghost use Rattle.std.specs.Prelude.{◌≡◌};
ghost use Rattle.task_model.specs.Syntax.Printed.{operator_text, operator_rank, left_place, right_place};

use task_model::Op;

pub(crate) fn operator_text(op: Op) -> &'static str
    ensures { result.now ≡ operator_text op }
{
    match op {
        Op::Or => "||",
        Op::And => "&&",
        Op::Eq => "==",
        Op::Ne => "!=",
        Op::Lt => "<",
        Op::Le => "<=",
        Op::Gt => ">",
        Op::Ge => ">=",
        Op::Cons => "::",
        Op::Add => "+",
        Op::Sub => "-",
        Op::Join => "++",
        Op::Mul => "*",
        Op::Quot => "quot",
        Op::Rem => "rem",
    }
}

/// Where an operator's own production stands among the nonterminals of expressions, from the tightest.
pub(crate) fn operator_rank(op: Op) -> u8
    ensures { result ≡ operator_rank op }
{
    match op {
        Op::Mul | Op::Quot | Op::Rem => 2,
        Op::Add | Op::Sub | Op::Join => 3,
        Op::Cons => 4,
        Op::Eq | Op::Ne | Op::Lt | Op::Le | Op::Gt | Op::Ge => 5,
        Op::And => 6,
        Op::Or => 7,
    }
}

/// The nonterminal at an operator's left part.
pub(crate) fn left_place(op: Op) -> u8
    ensures { result ≡ left_place op }
{
    match op {
        Op::Mul | Op::Quot | Op::Rem => 2,
        Op::Add | Op::Sub | Op::Join | Op::Cons => 3,
        Op::Eq | Op::Ne | Op::Lt | Op::Le | Op::Gt | Op::Ge => 4,
        Op::And => 6,
        Op::Or => 7,
    }
}

/// The nonterminal at an operator's right part.
pub(crate) fn right_place(op: Op) -> u8
    ensures { result ≡ right_place op }
{
    match op {
        Op::Mul | Op::Quot | Op::Rem => 1,
        Op::Add | Op::Sub | Op::Join => 2,
        Op::Cons | Op::Eq | Op::Ne | Op::Lt | Op::Le | Op::Gt | Op::Ge => 4,
        Op::And => 5,
        Op::Or => 6,
    }
}
