ghost use Rattle.std.specs.Prelude.{◌≡◌, ◌↔◌, IsTrue, MatchOption, option_map};
ghost use Rattle.serde_json.specs.Data.{Data, Members, member, no_members};
ghost use Rattle.serde_json.specs.Find.{as_object};
ghost use Rattle.serde_json.specs.View.{view};
ghost use Rattle.json_face.specs.Fields.{left};

use serde_json::Value as Json;
use std::collections::btree_map::Iter;

/// The members of an object that weren't taken yet, in the order of their keys.
#[derive(Drop)]
pub struct Fields<'a> {
    rest: Iter<'a, String, Json>,
}

impl<'a> Fields<'a> {
    /// All members of an object; none of anything else.
    pub fn of(json: &'a Json) -> Option<Fields<'a>>
        ensures { option_map left result ≡ as_object (view json.now) }
    {
        let members = json.as_object()?;
        Some(Fields {
            rest: members.iter(),
        })
    }

    /// The value of the next member, if that has this key.
    pub fn take(&mut self, key: &str) -> Option<&'a Json>
        ensures { MatchOption result ((d : Data) (ms : Members) → left self.old ≡ member key.now d ms → ⊥)
            (λ v. left self.old ≡ member key.now (view v.now) (left self.new)) }
    {
        let (name, value) = self.rest.next()?;
        if name.as_str() == key {
            return Some(value);
        }
        None
    }

    /// Whether all members were taken.
    pub fn is_done(mut self) -> bool
        ensures { IsTrue result ↔ (left self.entry ≡ no_members) }
    {
        self.rest.next().is_none()
    }
}
