//! The longest text and the longest list, and one longer: the readers refuse what is longer, so no text of a program leads there. And calls that no
//! other test makes.

use std::alloc::Global;
use std::test::Fail;
use task_model::{
    Act, Basic, Elements, Entry, Input, LIST_ELEMENT_LIMIT, OutOfMemory, Path, Row, Scope,
    TEXT_BYTE_LIMIT, TaskText, Turn, Turns, Value, copy_entry, copy_value, shared, value_has,
};

fn text_of(alloc: Global, length: usize) -> Result<Value, OutOfMemory> {
    let mut text = String::new(alloc);
    for _ in 0..length {
        text.push('a')?;
    }
    Ok(Value::Text(TaskText::of_string(text)?))
}

fn bools_of(alloc: Global, length: usize) -> Result<Value, OutOfMemory> {
    let mut items = Row::new(alloc);
    for _ in 0..length {
        items.push(Value::Bool(true))?;
    }
    Ok(Value::List(Elements::of(alloc, items)?))
}

// Whether the value has the type, and whether a copy of it has.
fn has(v: &Value, b: &Basic) -> Result<(bool, bool), OutOfMemory> {
    let copy = copy_value(v)?;
    Ok((value_has(v, b), value_has(&copy, b)))
}

// The same of a text and a list that are so much longer than the limit.
fn long_ones_have(alloc: Global, beyond: usize) -> Result<[(bool, bool); 2], OutOfMemory> {
    let bools = Basic::List(shared(alloc, Basic::Bool)?);
    let text = has(
        &text_of(alloc, TEXT_BYTE_LIMIT.saturating_add(beyond))?,
        &Basic::Text,
    )?;
    let list = has(
        &bools_of(alloc, LIST_ELEMENT_LIMIT.saturating_add(beyond))?,
        &bools,
    )?;
    Ok([text, list])
}

#[test]
fn texts_and_lists_have_limits(rt: HostRuntime) -> Result<(), Fail> {
    assert_eq!(rt; long_ones_have(rt.alloc(), 0)?, [(true, true); 2]);
    assert_eq!(rt; long_ones_have(rt.alloc(), 1)?, [(false, false); 2]);
    Ok(())
}

// The elements without the first ones.
fn behind(elements: &Elements<u8>, count: u32) -> Result<Elements<u8>, OutOfMemory> {
    let mut rest = elements.copy()?;
    for _ in 0..count {
        rest = rest.rest()?;
    }
    Ok(rest)
}

fn rests_text(alloc: Global) -> Result<String, OutOfMemory> {
    let all = Elements::of(alloc, Row::of_vec(vec![in alloc; 7, 8, 9]?))?;
    let mut text = String::new(alloc);
    for count in 0..5 {
        for element in behind(&all, count)?.as_slice() {
            write!(text, "{element} ")?;
        }
        text.push(';')?;
    }
    Ok(text)
}

#[test]
fn rests_of_elements(rt: HostRuntime) -> Result<(), Fail> {
    assert_eq!(rt; rests_text(rt.alloc())?.as_str(), "7 8 9 ;8 9 ;9 ;;;");
    Ok(())
}

// An entry that sets 3 at the second part.
fn entry(alloc: Global) -> Result<Entry, OutOfMemory> {
    let turns = Turns::of(alloc, &[Turn::Second])?;
    Ok(Entry {
        seat: 64,
        input: Input {
            path: Path { turns },
            act: Act::Set(Value::Int(3)),
        },
    })
}

// Whether it is that entry.
fn is_entry(entry: &Entry) -> bool {
    entry.seat == 64
        && entry.input.path.turns.as_slice() == [Turn::Second].as_slice()
        && matches!(entry.input.act, Act::Set(Value::Int(3)))
}

// Whether a copy of that entry is one.
fn is_copied(alloc: Global) -> Result<bool, OutOfMemory> {
    let entry = entry(alloc)?;
    Ok(is_entry(&copy_entry(alloc, &entry)?))
}

#[test]
fn a_copy_of_an_entry(rt: HostRuntime) -> Result<(), Fail> {
    assert!(rt; is_copied(rt.alloc())?);
    Ok(())
}

// The scope with a name more.
fn inside(alloc: Global, scope: &Scope, name: &str) -> Result<Scope, OutOfMemory> {
    scope.inside(alloc, TaskText::of(alloc, name)?)
}

// The names of a scope, with a blank behind each.
fn names_text(alloc: Global, scope: &Scope) -> Result<String, OutOfMemory> {
    let mut text = String::new(alloc);
    for name in scope.names(alloc)?.as_slice() {
        text.push_str(name.as_str())?;
        text.push(' ')?;
    }
    Ok(text)
}

// The names of a scope of two names, and of the one outside it.
fn scopes_text(alloc: Global) -> Result<String, OutOfMemory> {
    let one = inside(alloc, &Scope::empty(alloc)?, "a")?;
    let mut text = names_text(alloc, &inside(alloc, &one, "b")?)?;
    text.push_str(names_text(alloc, &one)?.as_str())?;
    Ok(text)
}

#[test]
fn names_of_scopes(rt: HostRuntime) -> Result<(), Fail> {
    assert_eq!(rt; scopes_text(rt.alloc())?.as_str(), "a b a ");
    Ok(())
}
