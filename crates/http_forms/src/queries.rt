ghost use Rattle.std.specs.Prelude.{◌≡◌, Some, IfOk, IfErr, codes};
ghost use Rattle.http_forms.specs.Forms as forms;
ghost use Rattle.http_forms.specs.Forms.{text_at, face_asked, version_asked};
ghost use Rattle.http_forms.specs.FormReading.{query_parts, AsksNothing};

use crate::first_text::first_text;
use crate::page_query::PageQuery;
use crate::query_stop::QueryStop;
use http_heads::number;
use std::alloc::Global;
use task_model::Face;

/// The page that a query asks for (docs/FORMATS.md, "Query and form").
pub fn read_query(alloc: Global, query: &[u8]) -> Result<PageQuery, QueryStop>
    ensures ok { IfOk result (λ q. forms.page_asked query.now ≡ Some (query_parts q)) }
    ensures err { IfErr result (AsksNothing (forms.page_asked query.now)) }
{
    let face = face(alloc, query)?;
    let at_least = version(alloc, query)?;
    Ok(PageQuery { face, at_least })
}

/// The face of the page.
fn face(alloc: Global, query: &[u8]) -> Result<Face, QueryStop>
    ensures ok { IfOk result (λ face. face_asked (text_at (codes "face") query.now) ≡ Some face) }
    ensures err { IfErr result (AsksNothing (face_asked (text_at (codes "face") query.now))) }
{
    let Some(text) = first_text(alloc, query, "face")? else {
        return Ok(Face::Html);
    };
    match text.as_str() {
        "html" => Ok(Face::Html),
        "text" => Ok(Face::Text),
        _ => Err(QueryStop::Malformed),
    }
}

/// The version that the page has at least, if one is named.
fn version(alloc: Global, query: &[u8]) -> Result<Option<u64>, QueryStop>
    ensures ok { IfOk result (λ version. version_asked (text_at (codes "v") query.now) ≡ Some version) }
    ensures err { IfErr result (AsksNothing (version_asked (text_at (codes "v") query.now))) }
{
    let Some(text) = first_text(alloc, query, "v")? else {
        return Ok(None);
    };
    match number(text.as_str().as_bytes(), 20) {
        Some(version) => Ok(Some(version)),
        None => Err(QueryStop::Malformed),
    }
}
