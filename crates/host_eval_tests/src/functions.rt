ghost use Rattle.std.specs.Prelude.{◌≡◌, [], map, Some, IfSome};
ghost use Rattle.task_model.specs.Terms.Value.{value_term};
ghost use Rattle.task_model.specs.Terms.Env.{empty_env};
ghost use Rattle.task_model.specs.Terms.Host.{HostTerm, host_term};
ghost use Rattle.task_model.specs.Terms.Program.{def_term};
ghost use Rattle.task_model.specs.Running.Checked.{checked_term};
ghost use Rattle.task_model.specs.Running.Plan.{gives_value};
ghost use Rattle.task_model.specs.Running.Judgements.{Gives};
ghost use Rattle.task_model.specs.Running.Spends.{Spends};
ghost use Rattle.typing_laws.specs.Well.{MayAsk};
ghost use Rattle.host_eval.specs.ValueWords.{function_in, function_term};

use host_eval::{Definitions, Names, eval};
use shared_store::Store;
use std::alloc::Global;
use task_model::{Host, Purse, Stop, TaskText, Value};

/// The value of the function of this name over a store of no values, where it has no parameters.
pub fn value_of(
    alloc: Global,
    definitions: &Definitions,
    name: &TaskText,
    purse: &mut Purse,
) -> Option<Result<Value, Stop>>
    ensures { IfSome result (λ r. (e : HostTerm) × (function_in (map def_term definitions.now.program.defs.list) name.now
        ≡ Some (function_term [] e))
        × Spends (Gives (checked_term definitions.now) e empty_env []) value_term purse.old purse.new r) }
{
    match body_of(definitions, name) {
        None => None,
        Some(e) => {
            let names = Names::of_params(&[], &[], 0);
            let store: Store<Value> = Store::new(alloc);
            Some(eval(alloc, definitions, e, &names, &store, purse))
        }
    }
}

// The body of the function of this name, where it has no parameters.
fn body_of<'a>(definitions: &'a Definitions, name: &TaskText) -> Option<&'a Host>
    ensures body { IfSome result (λ e. function_in (map def_term definitions.now.program.defs.list) name.now
        ≡ Some (function_term [] (host_term e.now))) }
    ensures may { IfSome result (λ e. MayAsk (checked_term definitions.now) (gives_value (host_term e.now) empty_env [])) }
{
    // Its program is accepted.
    let _accepted = definitions.checked().program();
    match definitions.function(name) {
        None => None,
        Some((params, body)) => match params {
            [] => Some(body),
            _ => None,
        },
    }
}
