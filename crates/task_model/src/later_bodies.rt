use crate::numbered_body::NumberedBody;
use crate::task::Body;

/// The bodies of a program that a task may name, and the number of the first one.
#[derive(Drop)]
pub struct LaterBodies<'p> {
    pub first: usize,
    pub bodies: &'p [Body],
}

impl<'p> LaterBodies<'p> {
    ghost use Rattle.std.specs.Prelude.{◌≡◌, ◌∷◌, ◌++◌, None, Some, List, IfNone, IfSome};
    ghost use Rattle.task_model.specs.Terms.Task.{body_term};
    ghost use Rattle.task_model.specs.declared.task.Body.{Body};
    ghost use Rattle.task_model.specs.Checking.FullTask.{full_body_numbered, full_body};
    ghost use Rattle.task_model.specs.Syntax.Printed.{no_body, body_numbered, body_text};
    ghost use Rattle.task_model.specs.Syntax.LaterBodies.{later_bodies, later_texts};

    /// The body of this number, with those that it may name.
    pub fn numbered(&self, number: u32) -> Option<NumberedBody<'p>>
        // As bodies stand in place.
        ensures full_absent { IfNone result (full_body_numbered self.now.first (later_bodies self.now) number ≡ None) }
        ensures full_found { IfSome result (λ n. full_body_numbered self.now.first (later_bodies self.now) number
            ≡ Some (full_body n.later.first (later_bodies n.later) (body_term n.body.now))) }
        // As bodies are written.
        ensures text_absent { IfNone result (body_numbered self.now.first (later_texts self.now) number ≡ no_body) }
        ensures text_found { IfSome result (λ n. body_numbered self.now.first (later_texts self.now) number
            ≡ body_text n.later.first (later_texts n.later) (body_term n.body.now)) }
        // The bodies that it may name are those behind it.
        ensures within { IfSome result (λ n. (before : List Body) × (self.now.bodies.now ≡ before ++ n.body.now ∷ n.later.bodies.now)) }
    {
        let number = number as usize;
        if number < self.first || self.bodies.len() <= number - self.first {
            return None;
        }
        let at = number - self.first;
        Some(NumberedBody {
            body: &self.bodies[at],
            later: LaterBodies {
                first: number + 1,
                bodies: &self.bodies[at + 1..],
            },
        })
    }
}
