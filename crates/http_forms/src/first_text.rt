ghost use Rattle.std.specs.Prelude.{◌≡◌, option_map, IfOk};
ghost use Rattle.std.specs.Cow.{cow_str_bytes};
ghost use Rattle.http_forms.specs.Forms.{text_at};

use form_urlencoded::{decode, raw_pairs};
use std::alloc::Global;
use std::borrow::CowStr;
use task_model::OutOfMemory;

/// The text of the first pair with this key in a query or a form. Of the other pairs the names alone are decoded.
pub(crate) fn first_text<'f>(
    alloc: Global,
    pairs: &'f [u8],
    key: &str,
) -> Result<Option<CowStr<'f, Global>>, OutOfMemory>
    ensures { IfOk result (λ found. option_map cow_str_bytes found ≡ text_at key.now pairs.now) }
{
    for (name, value) in raw_pairs(pairs) {
        let name = decode(alloc, name)?;
        if name.as_str() == key {
            return Ok(Some(decode(alloc, value)?));
        }
    }
    Ok(None)
}
