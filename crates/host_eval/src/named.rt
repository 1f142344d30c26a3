ghost use Rattle.std.specs.Prelude.{◌≡◌};
ghost use Rattle.task_model.specs.Terms.Text.{Text, same_text};

use task_model::{Param, TaskText};

/// What has a name.
pub(crate) trait Named {
    ghost spelling: { Self → Text };

    fn is_named(&self, name: &TaskText) -> bool
        ensures { result ≡ same_text (spelling self.now) name.now };
}

impl Named for TaskText {
    ghost spelling = { λ t. t };

    fn is_named(&self, name: &TaskText) -> bool {
        self.is(name)
    }
}

impl Named for Param {
    ghost spelling = { λ q. q.name };

    fn is_named(&self, name: &TaskText) -> bool {
        self.name.is(name)
    }
}
