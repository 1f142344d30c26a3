ghost use Rattle.std.specs.Prelude.{◌≡◌, ◌∷◌, [], ◌++◌, map, IfOk, IfErr};
ghost use Rattle.task_model.specs.Terms.Scope.{scope_names};

use exact_reading::ParseStop;
use std::alloc::Global;
use task_model::{Param, Row, Scope, TaskText, copy_text};

/// The scope of the body of a definition with these parameters.
pub fn parameter_scope(alloc: Global, parameters: &[Param]) -> Result<Scope, ParseStop>
    ensures names { IfOk result (λ scope. scope_names scope ≡ map (λ q. q.name) parameters.now) }
    ensures memory { IfErr result (λ e. e ≡ ParseStop.Memory) }
{
    let mut names = Row::new(alloc);
    for parameter in parameters {
        let Ok(name) = copy_text(&parameter.name) else {
            return Err(ParseStop::Memory);
        };
        if names.push(name).is_err() {
            return Err(ParseStop::Memory);
        }
    }
    match Scope::of(alloc, names) {
        Ok(scope) => Ok(scope),
        Err(_) => Err(ParseStop::Memory),
    }
}

/// The scope behind a binder of this name.
pub fn inner_scope(alloc: Global, scope: &Scope, name: &TaskText) -> Result<Scope, ParseStop>
    ensures names { IfOk result (λ inner. scope_names inner ≡ scope_names scope.now ++ name.now ∷ []) }
    ensures memory { IfErr result (λ e. e ≡ ParseStop.Memory) }
{
    let Ok(name) = copy_text(name) else {
        return Err(ParseStop::Memory);
    };
    match scope.inside(alloc, name) {
        Ok(inner) => Ok(inner),
        Err(_) => Err(ParseStop::Memory),
    }
}
