ghost use Rattle.std.specs.Prelude.{◌≡◌, ◌++◌, IfOk, OnOk, codes, decimal, string_bytes};
ghost use Rattle.task_model.specs.Terms.Basic.{basic_term};
ghost use Rattle.task_model.specs.Checking.TypeKind.{type_kind_term};
ghost use Rattle.task_model.specs.Checking.TypeFault.{mismatch, arity};
ghost use Rattle.tophat.specs.TypeFaultText.{type_fault_text};

use itoa::Buffer;
use literal_text::print_basic;
use std::alloc::Global;
use task_model::{Basic, OutOfMemory, TaskText, TypeKind};

/// What is wrong with the types of a program, as it is told (docs/FORMATS.md, "Statuses").
pub(crate) fn fault_text(alloc: Global, kind: &TypeKind) -> Result<TaskText, OutOfMemory>
    ensures { IfOk result (λ t. t ≡ type_fault_text (type_kind_term kind.now)) }
{
    match kind {
        TypeKind::UnknownName => TaskText::of(alloc, "UnknownName"),
        TypeKind::Duplicate => TaskText::of(alloc, "Duplicate"),
        TypeKind::Mismatch { want, got } => mismatch_text(alloc, want, got),
        TypeKind::NotPair => TaskText::of(alloc, "NotPair"),
        TypeKind::NotList => TaskText::of(alloc, "NotList"),
        TypeKind::NotRef => TaskText::of(alloc, "NotRef"),
        TypeKind::RefInValue => TaskText::of(alloc, "RefInValue"),
        TypeKind::Arity { want, got } => arity_text(alloc, *want, *got),
        TypeKind::LaterCall => TaskText::of(alloc, "LaterCall"),
        TypeKind::Unguarded => TaskText::of(alloc, "Unguarded"),
        TypeKind::TooManyNames => TaskText::of(alloc, "TooManyNames"),
        TypeKind::BigType => TaskText::of(alloc, "BigType"),
        TypeKind::NoMain => TaskText::of(alloc, "NoMain"),
    }
}

fn mismatch_text(alloc: Global, want: &Basic, got: &Basic) -> Result<TaskText, OutOfMemory>
    ensures { IfOk result (λ t. t ≡ type_fault_text (mismatch (basic_term want.now) (basic_term got.now))) }
{
    let want = print_basic(alloc, want)?;
    let got = print_basic(alloc, got)?;
    wanted_text(alloc, "Mismatch want ", want.as_str(), got.as_str())
}

fn arity_text(alloc: Global, want: u64, got: u64) -> Result<TaskText, OutOfMemory>
    ensures { IfOk result (λ t. t ≡ type_fault_text (arity want got)) }
{
    let mut wants = Buffer::new();
    let mut gots = Buffer::new();
    wanted_text(alloc, "Arity want ", wants.format(want), gots.format(got))
}

fn wanted_text(alloc: Global, word: &str, want: &str, got: &str) -> Result<TaskText, OutOfMemory>
    ensures { IfOk result (λ t. t ≡ word.now ++ (want.now ++ (codes " got " ++ got.now))) }
{
    let mut text = String::new(alloc);
    text.push_str(word)?;
    text.push_str(want)?;
    text.push_str(" got ")?;
    text.push_str(got)?;
    TaskText::of_string(text)
}
