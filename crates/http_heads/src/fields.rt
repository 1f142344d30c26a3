ghost use Rattle.std.specs.Prelude.{◌≡◌, ◌∷◌, ◌<◌, [], length, MatchOption, IfSome};
ghost use Rattle.httparse.specs.Grammar.{is_ows, trim_ows};
ghost use Rattle.http_heads.specs.Heads as heads;
ghost use Rattle.http_heads.specs.Heads.{values_among};
ghost use Rattle.http_heads.specs.Spans.{AreFieldsWithin, fields_at};

use httparse::spans::HeaderSpan;

/// The value of the first field of the name, and the fields behind it.
pub(crate) fn first_value<'b, 'h>(
    block: &'b [u8],
    fields: &'h [HeaderSpan],
    name: &[u8],
) -> Option<(&'b [u8], &'h [HeaderSpan])>
    requires { AreFieldsWithin block.now fields.now }
    ensures value { MatchOption result (values_among name.now (fields_at block.now fields.now) ≡ [])
        (λ r. values_among name.now (fields_at block.now fields.now)
        ≡ r.0.now ∷ values_among name.now (fields_at block.now r.1.now)) }
    ensures within { IfSome result (λ r. AreFieldsWithin block.now r.1.now × (length r.1.now < length fields.now)) }
{
    let mut rest = fields;
    while let Some((field, behind)) = rest.split_first() {
        if field.name.of(block).eq_ignore_ascii_case(name) {
            return Some((field.value.of(block), behind));
        }
        rest = behind;
    }
    None
}

/// Whether one of the words that commas part is `close`, in any case of letters.
pub(crate) fn has_close(value: &[u8]) -> bool
    ensures { result ≡ heads.has_close value.now }
{
    value.split(|byte| *byte == b',').any(|word| is_close(word))
}

/// Whether the word is `close`, in any case of letters, without the spaces and tabs round it.
fn is_close(word: &[u8]) -> bool
    ensures { result ≡ heads.is_close word.now }
{
    trim(word).eq_ignore_ascii_case(b"close")
}

/// The bytes without the spaces and tabs at both ends.
fn trim(bytes: &[u8]) -> &[u8]
    ensures { result.now ≡ trim_ows bytes.now }
{
    let mut start = 0;
    let mut end = bytes.len();
    while start < end && is_space_or_tab(bytes[start]) {
        start += 1;
    }
    while start < end && is_space_or_tab(bytes[end - 1]) {
        end -= 1;
    }
    &bytes[start..end]
}

fn is_space_or_tab(byte: u8) -> bool
    ensures { result ≡ is_ows byte }
{
    byte == b' ' || byte == b'\t'
}
