ghost use Rattle.std.specs.Prelude.{◌≡◌, None, Some, Err, IfOk};
ghost use Rattle.std.specs.Str.{IsUtf8};
ghost use Rattle.json_face.specs.declared.stop.JsonStop.TheVariants as JsonStop;
ghost use Rattle.serde_json.specs.Read.{read};
ghost use Rattle.serde_json.specs.View.{view};

use crate::stop::JsonStop;
use serde_json::{Category, Value as Json};
use std::alloc::Global;

/// The JSON that these bytes are.
pub(crate) fn read_json(alloc: Global, bytes: &[u8]) -> Result<Json, JsonStop>
    ensures found { IfOk result (λ json. IsUtf8 bytes.now × (read bytes.now ≡ Some (view json))) }
    ensures bad { result ≡ Err JsonStop.Bad → IsUtf8 bytes.now → read bytes.now ≡ None }
{
    match Json::from_slice(alloc, bytes) {
        Ok(json) => Ok(json),
        Err(e) => match e.classify() {
            Category::Memory => Err(JsonStop::Memory),
            Category::Io | Category::Syntax | Category::Data | Category::Eof => Err(JsonStop::Bad),
        },
    }
}
