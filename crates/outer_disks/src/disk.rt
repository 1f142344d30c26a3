ghost use Rattle.std.specs.Prelude.{◌≡◌, ◌+◌, ◌^◌, ◌<◌, ◌≤◌, length};
ghost use Rattle.outer_io.specs.Causes.{Rose};
ghost use Rattle.outer_disks.specs.Disks.{DiskTold, IsHonest, ReadsAt, Measures, Rests, WritesAt, Syncs, KeepsTime, faults_after_got, faults_after_done, faults_after_length};

/// The answer of a read at an offset: so many bytes, that none stands there, or a fault.
#[derive(Clone, Copy, Debug, PartialEq, Eq)]
pub enum DiskGot {
    Took(usize),
    End,
    Failed,
}

/// The answer of a write or a sync.
#[derive(Clone, Copy, Debug, PartialEq, Eq)]
pub enum DiskDone {
    Done,
    Failed,
}

/// The answer to the question how many bytes there are.
#[derive(Clone, Copy, Debug, PartialEq, Eq)]
pub enum DiskLength {
    Bytes(u64),
    Failed,
}

/// Bytes that outlive the program. What is written is sure to be there once a sync is done.
pub trait Disk {
    // What the disk tells of itself. One that tells nothing isn't honest.
    ghost told: { Self → DiskTold };

    /// The number of its bytes.
    fn length(&mut self) -> DiskLength
        ensures measures { Measures (told self.old) result }
        ensures rests { Rests (told self.old) (told self.new) }
        ensures count { (told self.old).faults ≤ (told self.new).faults }
        ensures failed { result ≡ DiskLength.Failed → Rose (told self.old).faults (told self.new).faults }
        ensures exact { (told self.new).faults ≡ faults_after_length (told self.old).faults result };

    /// Reads bytes at an offset into the front of `room`, at least one, or answers `End` where none stands there.
    fn read(&mut self, at: u64, room: &mut [u8]) -> DiskGot
        requires { 0 < length room.old }
        ensures reads { ReadsAt (told self.old) at room.new result }
        ensures rests { Rests (told self.old) (told self.new) }
        ensures count { (told self.old).faults ≤ (told self.new).faults }
        ensures failed { result ≡ DiskGot.Failed → Rose (told self.old).faults (told self.new).faults }
        ensures exact { (told self.new).faults ≡ faults_after_got (told self.old).faults result };

    /// Writes a whole piece over what is there, and past the end. Until a sync a crash may leave any bytes in its range. A write
    /// that failed leaves the bytes outside, too.
    fn write_at(&mut self, at: u64, piece: &[u8]) -> DiskDone
        requires some { 0 < length piece.now }
        requires at { IsHonest (told self.old) → at ≤ length (told self.old).seen }
        requires end { at + length piece.now < 2 ^ 63 }
        ensures writes { WritesAt (told self.old) at piece.now (told self.new) result }
        ensures count { (told self.old).faults ≤ (told self.new).faults }
        ensures failed { result ≡ DiskDone.Failed → Rose (told self.old).faults (told self.new).faults }
        ensures exact { (told self.new).faults ≡ faults_after_done (told self.old).faults result };

    /// Once it is done, a crash leaves just what reads give. One that failed makes nothing sure.
    fn sync(&mut self) -> DiskDone
        ensures syncs { Syncs (told self.old) (told self.new) result }
        ensures count { (told self.old).faults ≤ (told self.new).faults }
        ensures failed { result ≡ DiskDone.Failed → Rose (told self.old).faults (told self.new).faults }
        ensures exact { (told self.new).faults ≡ faults_after_done (told self.old).faults result };

    // Of an honest disk: what a crash may leave goes with its clock.
    ghost keeps_time: { (d : Self) → IsHonest (told d) → KeepsTime (told d) };
}
