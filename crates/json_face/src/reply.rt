ghost use Rattle.std.specs.Prelude.{◌≡◌, false, IfOk};
ghost use Rattle.json_face.specs.JsonReplies.{reply_data, taken_data, refused_data};
ghost use Rattle.serde_json.specs.View.{view};
ghost use Rattle.serde_json.specs.Written.{compact_text, has_float};

use serde_json::{Value as Json, json};
use std::alloc::{AllocError, Global};
use task_model::{OutOfMemory, TaskText};

/// What became of an input, with the version that is told of it.
#[derive(Clone, Copy, Debug, PartialEq, Eq)]
pub enum JsonReply {
    Taken { version: u64 },
    NotOffered { version: u64 },
    OverBudget { version: u64 },
}

/// A reply as JSON text, with no LF (docs/FORMATS.md, "JSON").
pub fn write_reply(alloc: Global, reply: JsonReply) -> Result<TaskText, OutOfMemory>
    ensures { IfOk result (λ t. t ≡ compact_text (reply_data reply)) }
{
    match reply {
        JsonReply::Taken { version } => text_of(alloc, &taken_json(alloc, version)?),
        JsonReply::NotOffered { version } => {
            text_of(alloc, &refused_json(alloc, "not offered", version)?)
        }
        JsonReply::OverBudget { version } => {
            text_of(alloc, &refused_json(alloc, "over budget", version)?)
        }
    }
}

fn text_of(alloc: Global, json: &Json) -> Result<TaskText, OutOfMemory>
    requires { has_float (view json.now) ≡ false }
    ensures { IfOk result (λ t. t ≡ compact_text (view json.now)) }
{
    TaskText::of_string(json.to_string(alloc)?)
}

fn taken_json(alloc: Global, version: u64) -> Result<Json, AllocError>
    ensures { IfOk result (λ j. view j ≡ taken_data version) }
{
    json!(in alloc; {"taken": version})
}

fn refused_json(alloc: Global, why: &str, version: u64) -> Result<Json, AllocError>
    ensures { IfOk result (λ j. view j ≡ refused_data why.now version) }
{
    json!(in alloc; {"refused": why, "version": version})
}
