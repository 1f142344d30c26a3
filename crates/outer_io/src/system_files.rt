ghost use Rattle.std.specs.Prelude.{◌≡◌, ◌≢◌, ◌+◌, ◌≤◌, ◌↔◌, min, IfErr, IfOk, IfSome, IsErrAnd, None, Some, option_map};
ghost use Rattle.std.specs.IoError.{error_kind};
ghost use Rattle.outer_io.specs.Files.{AnswersFile, HasAtMost, faults_after_request};

use crate::files::{FileAnswer, Files};
use crate::reader_source::ReaderSource;
use crate::source::{Got, Source};
use std::alloc::Global;
use std::io::{ErrorKind, Read};
use std::{fs, io};
use task_model::{Row, TaskText};

/// The files of the system. They tell nothing of what a name holds.
///
/// `Absent` comes only where the system says that there is no such file. A directory, or a file
/// that may not be read, is a fault. A call that a signal interrupts is tried again. The last
/// of 2^64 - 1 in a row that are interrupted is a fault.
#[derive(Drop)]
pub struct SystemFiles<'a, R> {
    rt: &'a R,
    faults: u64,
}

impl<'a, R: std::rt::Files> SystemFiles<'a, R> {
    /// The system's files, of which no request failed yet.
    pub fn new(rt: &'a R) -> SystemFiles<'a, R>
        ensures { ⟦<SystemFiles<'a, R> as Files>⟧.faults result ≡ 0 }
    {
        SystemFiles { rt, faults: 0 }
    }
}

impl<R: std::rt::Files> Files for SystemFiles<'_, R> {
    ghost holds = { λ _ _. None };

    ghost faults = { λ f. f.faults };

    fn read_whole(&mut self, alloc: Global, name: &TaskText, limit: u64) -> FileAnswer {
        let answer = read_opened(alloc, open(self.rt, name.as_str()), limit);
        if let FileAnswer::Failed = &answer {
            self.faults = self.faults.saturating_add(1);
        }
        answer
    }
}

// Opens a file to be read, and tries again where a signal interrupts that.
fn open<R: std::rt::Files>(rt: &R, name: &str) -> io::Result<R::File>
    ensures { IfErr result (λ error. error_kind error ≢ ErrorKind.Interrupted) }
{
    for _ in 0..u64::MAX {
        if let Some(opened) = unless_interrupted(fs::open(rt, name)) {
            return opened;
        }
    }
    Err(io::Error::from(ErrorKind::TimedOut))
}

// The system's answer. None: a signal interrupted the call.
fn unless_interrupted<F: Drop>(opened: io::Result<F>) -> Option<io::Result<F>>
    ensures answer { IfSome result (λ answer. answer ≡ opened) }
    ensures interrupted { (result ≡ None) ↔ IsErrAnd opened (λ error. error_kind error ≡ ErrorKind.Interrupted) }
{
    match opened {
        Err(error) if error.kind() == ErrorKind::Interrupted => None,
        opened => Some(opened),
    }
}

// Reads a file that was opened. It is absent exactly where the system says that there is no such file.
fn read_opened<F: Read + Drop>(alloc: Global, opened: io::Result<F>, limit: u64) -> FileAnswer
    ensures file { IfOk opened (λ file. AnswersFile (option_map Some (F.remaining file)) limit result) }
    ensures within { HasAtMost limit result }
    ensures absent { (result ≡ FileAnswer.Absent) ↔ IsErrAnd opened (λ error. error_kind error ≡ ErrorKind.NotFound) }
    ensures failed { IfErr opened (λ error. error_kind error ≢ ErrorKind.NotFound → result ≡ FileAnswer.Failed) }
{
    match opened {
        Ok(file) => read_file(alloc, &mut ReaderSource::new(file), limit),
        Err(error) if error.kind() == ErrorKind::NotFound => FileAnswer::Absent,
        Err(_) => FileAnswer::Failed,
    }
}

// How many bytes one read of a file gives at most.
const ROOM: usize = 65536;

/// Reads a file to its end, or to the first byte beyond the limit.
pub fn read_file<I: Source>(alloc: Global, file: &mut I, limit: u64) -> FileAnswer
    ensures file { AnswersFile (option_map Some (I.left file.old)) limit result }
    ensures within { HasAtMost limit result }
    ensures exists { result ≡ FileAnswer.Absent → ⊥ }
    ensures exact { I.faults file.new ≡ faults_after_request (I.faults file.old) result }
{
    let mut bytes = Row::new(alloc);
    let mut room = [0u8; ROOM];
    'file: loop {
        let left = limit - bytes.as_slice().len() as u64;
        let piece = &mut room[..piece_for(left)];
        match file.read(piece) {
            Got::Took(count) if count as u64 > left => return FileAnswer::TooLong,
            Got::Took(count) => {
                if bytes.extend(&piece[..count]).is_err() {
                    return FileAnswer::Memory;
                }
            }
            Got::End => return FileAnswer::Bytes(bytes),
            Got::Failed => return FileAnswer::Failed,
        }
    }
}

// How many bytes to ask for where so many are left to the limit: one more, which shows a file that
// is too long, but no more than there is room for.
fn piece_for(left: u64) -> usize
    ensures { result ≡ min ROOM (left + 1) }
{
    (ROOM as u64).min(left.saturating_add(1)) as usize
}
