ghost use Rattle.std.specs.Prelude.{◌≡◌, ◌-◌, ◌<◌, ◌≤◌, [], true, ◌∷◌, ℕ, MatchOption, IfSome, length};
ghost use Rattle.std.specs.Str.{all_scalars};
ghost use Rattle.task_syntax.specs.Runs.{BeginsWithCharacter};

/// The first character of a text, and what stands after it.
pub(crate) fn first_char(text: &str) -> Option<(char, &str)>
    ensures cases { MatchOption result (text.now ≡ []) (λ r. BeginsWithCharacter text.now r.0 r.1.now) }
    ensures scalar { IfSome result (λ r. all_scalars (r.0 ∷ []) ≡ true) }
    ensures shorter { IfSome result (λ r. length r.1.now < length text.now) }
{
    let mut chars = text.chars();
    let first = chars.next()?;
    Some((first, chars.as_str()))
}

/// The place in a source at which this rest of it begins.
pub(crate) fn place_of(source: &str, rest: &str) -> u64
    requires { length rest.now ≤ length source.now }
    ensures { result ≡ length source.now - length rest.now }
{
    (source.len() - rest.len()) as u64
}
