ghost use Rattle.std.specs.Prelude.{◌≡◌, ◌++◌, ℕ, List, codes};
ghost use Rattle.outer_gates.specs.Gates.{GateTold};
ghost use Rattle.task_model.specs.Terms.Item.{ItemTerm};
ghost use Rattle.task_model.specs.Terms.Text.{Text};
ghost use Rattle.task_model.specs.Running.State.{IsPage};
ghost use Rattle.task_model.specs.declared.widget.Face.TheVariants as faces;
ghost use Rattle.task_server.specs.Servings.{IsServed};
ghost use Rattle.task_server.specs.declared.gate_state.GateState.{GateState};
ghost use Rattle.tophat.specs.Replay.{replay_script, show_line};
ghost use Rattle.tophat.specs.Top.{limits};
ghost use Rattle.tophat_commands.specs.Again.{IsWithinRun, IsRunAgain};
ghost use Rattle.tophat_commands.specs.Courses.{port_line, serve_text};
ghost use Rattle.tophat_commands.specs.ServedFiles.{IsOpenedOf};

/// What `serve` writes behind the line that tells its port is a script. Where a gate was served over the program of these bytes, a run of the
/// same bytes on that script, and then the line that asks for a seat's page, takes every entry again, and shows that seat's page of the
/// closed history (docs/RULES.md, "Serving").
pub fn served_histories_are_replayed()
    ensures script { (port seat : ℕ) (history : List ItemTerm) → (entries : Text) × (serve_text port history ≡ port_line port ++ entries)
        × (replay_script history seat ≡ entries ++ (show_line seat ++ codes "\n")) }
    ensures again { (name bytes page : Text) (budget seats connections stated seat : ℕ) (start history : List ItemTerm)
        (entry now : GateTold) (state : GateState) (taken : List ℕ) → IsOpenedOf budget bytes start
        → IsServed start seats 0 stated entry now state history taken connections → IsWithinRun limits bytes history seat
        → IsPage faces.Text history seat page → IsRunAgain limits name bytes budget history seat page }
{}
