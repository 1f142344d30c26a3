use crate::lines::{Unsaid, say};
use outer_disks::{Disk, DiskDone, DiskGot, DiskOpen, Disks};
use outer_io::Sink;
use std::alloc::Global;
use std::os::unix::fs::{PermissionsExt, symlink};
use std::{fs, io};
use system_disks::{SystemDisk, SystemDisks};
use task_model::{Row, TaskText};

/// Names of which no disk can be had: a folder, what has no folder, a device, no name of a file, a link that leads nowhere, and a file that
/// mustn't be written.
const REFUSED: &[&str] = &[
    ".",
    "none/new",
    "letters/new",
    "/dev/null",
    "",
    "none/",
    "leads_nowhere",
    "guarded",
];

/// Asks for disks of the system, and says what comes of each.
pub(crate) fn try_disks<O: Sink>(rt: &HostRuntime, out: &mut O) -> Result<(), Unsaid> {
    let mut disks = SystemDisks::new(rt);
    make_others(rt)?;
    looks(rt.alloc(), out, &mut disks, "none")?;
    writes_again(rt.alloc(), out, &mut disks)?;
    looks(rt.alloc(), out, &mut disks, "leads_there")?;
    writes_twice(rt.alloc(), out, &mut disks)?;
    for name in REFUSED {
        looks(rt.alloc(), out, &mut disks, name)?;
    }
    Ok(())
}

// Makes two links and a file that mustn't be written.
fn make_others(rt: &HostRuntime) -> io::Result<()> {
    symlink(rt, "new", "leads_there")?;
    symlink(rt, "gone", "leads_nowhere")?;
    fs::write(rt, "guarded", b"guarded".as_slice())?;
    fs::set_permissions(rt, "guarded", fs::Permissions::from_mode(0o444))
}

// Says what the disk of a name holds, and gives it back.
fn looks<O: Sink>(
    alloc: Global,
    out: &mut O,
    disks: &mut SystemDisks<'_>,
    name: &str,
) -> Result<(), Unsaid> {
    let text = TaskText::of(alloc, name)?;
    let seen = match disks.open_disk(&text) {
        DiskOpen::Disk(mut disk) => {
            let seen = seen(alloc, &mut disk)?;
            disks.done(&text, disk);
            seen
        }
        DiskOpen::Failed => bytes(alloc, b"(refused)")?,
    };
    tells(out, name, "has", seen.as_slice())
}

// The first bytes of a disk.
fn seen(alloc: Global, disk: &mut SystemDisk<'_>) -> Result<Row<u8>, Unsaid> {
    let mut room = [0u8; 32];
    match disk.read(0, &mut room) {
        DiskGot::Took(count) => bytes(alloc, &room[..count]),
        DiskGot::End => bytes(alloc, b"(nothing)"),
        DiskGot::Failed => bytes(alloc, b"(a read fault)"),
    }
}

fn bytes(alloc: Global, bytes: &[u8]) -> Result<Row<u8>, Unsaid> {
    let mut row = Row::new(alloc);
    row.extend(bytes)?;
    Ok(row)
}

fn tells<O: Sink>(out: &mut O, name: &str, act: &str, what: &[u8]) -> Result<(), Unsaid> {
    say(
        out,
        &[
            b"[",
            name.as_bytes(),
            b"] as a disk ",
            act.as_bytes(),
            b": ",
            what,
            b"\n",
        ],
    )
}

// What comes of a write and a sync.
fn kept(disk: &mut SystemDisk<'_>, at: u32, piece: &[u8; 3]) -> &'static [u8] {
    match (disk.write_at(at as u64, piece), disk.sync()) {
        (DiskDone::Done, DiskDone::Done) => b"sure",
        (DiskDone::Done, DiskDone::Failed) => b"(a sync fault)",
        (DiskDone::Failed, _) => b"(a write fault)",
    }
}

// Writes a disk that isn't there yet, and again when it was given back. It looks in between, also while it is out.
fn writes_again<O: Sink>(
    alloc: Global,
    out: &mut O,
    disks: &mut SystemDisks<'_>,
) -> Result<(), Unsaid> {
    let name = TaskText::of(alloc, "new")?;
    for (at, piece) in [(0, b"abc"), (3, b"def"), (1, b"XYZ")] {
        match disks.open_disk(&name) {
            DiskOpen::Disk(mut disk) => {
                tells(out, "new", "is written", kept(&mut disk, at, piece))?;
                looks(alloc, out, disks, "new")?;
                disks.done(&name, disk);
            }
            DiskOpen::Failed => tells(out, "new", "is written", b"(refused)")?,
        }
        looks(alloc, out, disks, "new")?;
    }
    Ok(())
}

// Has a disk that isn't there yet twice, and writes both.
fn writes_twice<O: Sink>(
    alloc: Global,
    out: &mut O,
    disks: &mut SystemDisks<'_>,
) -> Result<(), Unsaid> {
    let name = TaskText::of(alloc, "twice")?;
    if let (DiskOpen::Disk(mut first), DiskOpen::Disk(mut second)) = (
        disks.open_disk(&name),
        disks.open_disk(&name),
    ) {
        tells(out, "twice", "is written", kept(&mut first, 0, b"abc"))?;
        tells(out, "twice", "is written", kept(&mut second, 0, b"def"))?;
        disks.done(&name, second);
        disks.done(&name, first);
    }
    looks(alloc, out, disks, "twice")
}
