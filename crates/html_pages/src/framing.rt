ghost use Rattle.std.specs.Prelude.{◌≡◌, ◌++◌, List, codes, decimal, length, map, IfOk, OnOk, string_bytes};
ghost use Rattle.task_model.specs.Showing.Widget.{WidgetTerm};
ghost use Rattle.task_model.specs.Showing.Html as model;
ghost use Rattle.html_pages.specs.Fragments.{face_text, fragment_of, fragments_text, page_end, page_start};

use crate::fragment::Fragment;
use crate::fragments::Fragments;
use crate::page::Page;
use itoa::Buffer;
use std::alloc::Global;
use task_model::{Face, OutOfMemory};
use terminal_view::push;

// The bytes of a page besides its fragments are no more.
const FRAME_BYTES: usize = 256;

// Room for the head of a reply, of as many bytes as one has at most (docs/FORMATS.md, "Replies").
const HEAD_ROOM: &str = "\
    ----------------------------------------------------------------\
    ----------------------------------------------------------------\
    ----------------------------------------------------------------\
    ----------------------------------------------------------------";

/// The page of these fragments in one of the faces, with no room in front. Its memory is taken once.
pub fn frame(
    alloc: Global,
    face: Face,
    version: u64,
    seat: u8,
    list: &Fragments,
) -> Result<Page, OutOfMemory>
    ensures version { IfOk result (λ page. page.version ≡ version) }
    // Whatever widgets these are the fragments of, it is the page of those.
    ensures text { (ws : List WidgetTerm) → list.now ≡ map fragment_of ws → IfOk result
        (λ page. page.text ≡ face_text face version seat ws) }
{
    framed(alloc, "", face, version, seat, list)
}

/// The same page behind room for the head of any reply (docs/FORMATS.md, "Replies"). Its memory is taken once.
pub fn frame_behind_room(
    alloc: Global,
    face: Face,
    version: u64,
    seat: u8,
    list: &Fragments,
) -> Result<Page, OutOfMemory>
    ensures version { IfOk result (λ page. page.version ≡ version) }
    ensures text { (ws : List WidgetTerm) → list.now ≡ map fragment_of ws → IfOk result
        (λ page. page.text ≡ face_text face version seat ws) }
    ensures room { IfOk result (λ page. page.room ≡ 256) }
{
    framed(alloc, HEAD_ROOM, face, version, seat, list)
}

// The page behind this room.
fn framed(
    alloc: Global,
    room: &str,
    face: Face,
    version: u64,
    seat: u8,
    list: &Fragments,
) -> Result<Page, OutOfMemory>
    ensures version { IfOk result (λ page. page.version ≡ version) }
    ensures text { (ws : List WidgetTerm) → list.now ≡ map fragment_of ws → IfOk result
        (λ page. page.text ≡ face_text face version seat ws) }
    ensures room { IfOk result (λ page. page.room ≡ length room.now) }
{
    let size = page_size(face, list).saturating_add(room.len());
    let mut padded = String::with_capacity(alloc, size)?;
    push(&mut padded, room)?;
    push_start(&mut padded, face, version, seat)?;
    push_fragments(&mut padded, face, list)?;
    push(&mut padded, end(face))?;
    Ok(Page {
        version,
        room: room.len(),
        padded,
    })
}

// As many bytes as a page of these fragments has, or more.
fn page_size(face: Face, list: &Fragments) -> usize {
    let (chunks, last) = list.parts();
    let mut size = FRAME_BYTES.saturating_add(texts_size(face, last));
    for chunk in chunks {
        size = size.saturating_add(texts_size(face, chunk.as_slice()));
    }
    size
}

fn texts_size(face: Face, fragments: &[Fragment]) -> usize {
    let mut size: usize = 0;
    for fragment in fragments {
        size = size.saturating_add(fragment.text(face).len());
    }
    size
}

fn push_start(text: &mut String, face: Face, version: u64, seat: u8) -> Result<(), OutOfMemory>
    ensures { OnOk result (string_bytes text.new ≡ string_bytes text.old ++ page_start face version seat) }
{
    match face {
        Face::Text => terminal_view::push_head(text, version, seat),
        Face::Html => push_html_start(text, version, seat),
    }
}

fn push_html_start(text: &mut String, version: u64, seat: u8) -> Result<(), OutOfMemory>
    ensures { OnOk result (string_bytes text.new ≡ string_bytes text.old ++ page_start Face.Html version seat) }
{
    push(
        text,
        "<!DOCTYPE html>\n<html lang=\"en\"><head><meta charset=\"utf-8\"><title>tophat</title></head><body>\n",
    )?;
    push_version(text, version, seat)
}

fn push_version(text: &mut String, version: u64, seat: u8) -> Result<(), OutOfMemory>
    ensures { OnOk result (string_bytes text.new ≡ string_bytes text.old
        ++ model.paragraph (codes "version " ++ decimal version ++ codes " seat " ++ decimal seat)) }
{
    push(text, "<p>")?;
    push_numbers(text, version, seat)?;
    push(text, "</p>\n")
}

fn push_numbers(text: &mut String, version: u64, seat: u8) -> Result<(), OutOfMemory>
    ensures { OnOk result (string_bytes text.new ≡ string_bytes text.old
        ++ (codes "version " ++ decimal version ++ codes " seat " ++ decimal seat)) }
{
    let mut number = Buffer::new();
    push(text, "version ")?;
    push(text, number.format(version))?;
    push(text, " seat ")?;
    push(text, number.format(seat))
}

fn push_fragments(text: &mut String, face: Face, list: &Fragments) -> Result<(), OutOfMemory>
    ensures { OnOk result (string_bytes text.new ≡ string_bytes text.old ++ fragments_text face list.now) }
{
    let (chunks, last) = list.parts();
    for chunk in chunks {
        push_texts(text, face, chunk.as_slice())?;
    }
    push_texts(text, face, last)
}

fn push_texts(text: &mut String, face: Face, fragments: &[Fragment]) -> Result<(), OutOfMemory>
    ensures { OnOk result (string_bytes text.new ≡ string_bytes text.old ++ fragments_text face fragments.now) }
{
    for fragment in fragments {
        push(text, fragment.text(face))?;
    }
    Ok(())
}

// What a page ends with.
fn end(face: Face) -> &'static str
    ensures { result.now ≡ page_end face }
{
    match face {
        Face::Text => "",
        Face::Html => "</body></html>\n",
    }
}
