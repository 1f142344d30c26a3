ghost use Rattle.std.specs.Prelude.{◌≡◌, ◌↔◌, ℕ, List, [], ◌∷◌, None, Some, codes, decimal, false, true};
ghost use Rattle.std.specs.List.{list_all};
ghost use Rattle.task_model.specs.Terms.Text.{Text};
ghost use Rattle.task_model.specs.Running.State.{IsBudget};
ghost use Rattle.command_words.specs.Commands.{command_of, run, serve};
ghost use Rattle.command_words.specs.WordGrammar.{Follows, is_option_name};
ghost use Rattle.command_words.specs.WordReading.{Use, begins_with_dash, read};

/// The reading of the words behind a command's name is a grammar with a rule for each thing that a word may do.
pub fn words_follow_the_grammar()
    ensures { (arguments options words : List Text) (uses : List Use) → list_all is_option_name options ≡ true
        → (read words arguments options None ≡ Some uses) ↔ Follows arguments options words uses }
{}

/// `run FILE --budget N` asks for the run of that file within that budget, where the name doesn't begin with `-`; and
/// `run --budget N -- FILE` does for every name (docs/FORMATS.md, "Words").
pub fn runs_are_read()
    ensures plain { (file : Text) (budget : ℕ) → IsBudget budget → begins_with_dash file ≡ false
        → command_of (codes "run" ∷ file ∷ codes "--budget" ∷ decimal budget ∷ []) ≡ Some (run file budget) }
    ensures behind_dashes { (file : Text) (budget : ℕ) → IsBudget budget
        → command_of (codes "run" ∷ codes "--budget" ∷ decimal budget ∷ codes "--" ∷ file ∷ []) ≡ Some (run file budget) }
{}

/// `serve FILE` asks to serve that file with what is usual, where the name doesn't begin with `-`: a budget of 10,000 units, 8 seats, 4 workers,
/// port 8080 and 1,000,000 connections (docs/FORMATS.md, "Words").
pub fn usual_serving()
    ensures { (file : Text) → begins_with_dash file ≡ false → command_of (codes "serve" ∷ file ∷ []) ≡ Some (serve file (record {
      budget = 10000;
      seats = 8;
      workers = 4;
      port = 8080;
      connections = 1000000;
    })) }
{}
