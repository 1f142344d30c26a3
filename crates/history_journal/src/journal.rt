ghost use Rattle.std.specs.Prelude.{◌≡◌, ◌≤◌, false, length, IfErr, IfOk, None, OnErr, OnOk};
ghost use Rattle.task_model.specs.Terms.Input.{input_term};
ghost use Rattle.task_model.specs.Running.State.{IsPage, IsSeat, version_of};
ghost use Rattle.outer_disks.specs.Disks.{IsHonest, LeavesOnly};
ghost use Rattle.input_lines.specs.EntryText.{entry_line};
ghost use Rattle.world_core.specs.World.{world_term};
ghost use Rattle.world_core.specs.Pages.{IsWorldPage};
ghost use Rattle.history_journal.specs.NotTaken.{IsNotTaken};
ghost use Rattle.history_journal.specs.Journals.{HoldsJournal, IsBeforeOrTaken, TakesOn};

use crate::keeping::{Kept, keep};
use crate::staging::stage;
use crate::stops::KeepStop;
use html_pages::Page;
use outer_disks::Disk;
use std::alloc::Global;
use std::marker::Model;
use std::sync::ledger::Ledger;
use task_model::{ActStop, Face, Input, OutOfMemory, Steps};
use world_core::{Taken, World};

/// A world whose history is on a disk.
#[derive(Drop)]
pub struct Journal<D: Disk + Drop> {
    pub(crate) disk: D,
    pub(crate) world: World,
    // Where its closed gate stands.
    pub(crate) gate: u64,
    // Whether it met a fault.
    pub(crate) closed: bool,
}

impl<D: Disk + Drop> Model for Journal<D> {
    ghost use Rattle.world_core.specs.contracts.world.World as worlds;
    ghost use Rattle.world_core.specs.World.{world_term};
    ghost use Rattle.history_journal.specs.Journals.{SeenJournal, journal_code, IsKeptJournal};

    ghost Value = { SeenJournal D };

    ghost coded = { journal_code D.code worlds.the_row.coded };

    ghost view = { λ j. record { disk = j.disk; world = j.world; closed = j.closed } };

    ghost invariant = { λ j. IsKeptJournal (D.told j.disk) (world_term j.world) j.gate j.closed };
}

impl<D: Disk + Drop> Journal<D> {
    /// Takes an input of a seat, 1 to 64, once its entry is on the disk. A refusal leaves the world. After a fault of the disk no more is taken.
    pub fn handle(&mut self, alloc: Global, seat: u8, input: Input) -> Result<Taken, KeepStop>
        requires { IsSeat seat }
        ensures ok { OnOk result (TakesOn (world_term self.old.world) (record { seat = seat; input = input_term input })
            (world_term self.new.world) self.old.closed self.new.closed) }
        ensures version { IfOk result (λ done. done.version ≡ version_of (world_term self.new.world).history) }
        ensures short { OnOk result (length (entry_line (record { seat = seat; input = input_term input })) ≤ 1048576) }
        ensures honest { (D.told self.new.disk).honest ≡ (D.told self.old.disk).honest }
        ensures count { (D.told self.old.disk).faults ≤ (D.told self.new.disk).faults }
        ensures settled { OnOk result (IsHonest (D.told self.old.disk)
            → HoldsJournal (D.told self.new.disk) (world_term self.new.world).history) }
        ensures left { OnErr result (world_term self.new.world ≡ world_term self.old.world) }
        ensures why { IfErr result (IsNotTaken D.told (world_term self.old.world) (record { seat = seat; input = input_term input })
            self.old.closed self.new.closed self.old.disk self.new.disk) }
        // A crash at any moment of the call leaves a journal of the history, or of the history with the entry, if it is taken there.
        ensures any_moment { self.old.closed ≡ false → IsHonest (D.told self.old.disk) → LeavesOnly (D.told self.old.disk)
            (D.told self.new.disk) (IsBeforeOrTaken (world_term self.old.world) (record { seat = seat; input = input_term input })) }
    {
        if self.closed {
            return Err(KeepStop::Closed);
        }
        let record = match stage(alloc, &mut self.world, seat, input) {
            Ok(record) => record,
            Err(ActStop::NotOffered) => return Err(KeepStop::NotOffered),
            Err(ActStop::Over) => return Err(KeepStop::Over),
            Err(ActStop::Memory) => return Err(KeepStop::Memory),
        };
        match keep(alloc, &mut self.disk, self.gate, record.as_slice()) {
            Kept::Done(gate) => {
                self.gate = gate;
                Ok(self.world.commit())
            }
            Kept::Fault => {
                self.world.abandon();
                self.closed = true;
                Err(KeepStop::DiskFault)
            }
            Kept::Long(length) => {
                self.world.abandon();
                Err(KeepStop::LongEntry { length })
            }
            Kept::Memory => {
                self.world.abandon();
                Err(KeepStop::Memory)
            }
        }
    }

    /// The page of its world for a seat, 1 to 64, in one of the faces. What is drawn for it is kept; the disk isn't asked.
    pub fn page<L: Ledger>(
        &mut self,
        alloc: Global,
        face: Face,
        seat: u8,
        steps: &mut Steps<L>,
    ) -> Result<Page, OutOfMemory>
        requires { IsSeat seat }
        ensures disk { self.new.disk ≡ self.old.disk }
        ensures closed { self.new.closed ≡ self.old.closed }
        ensures world { world_term self.new.world ≡ world_term self.old.world }
        ensures page { IfOk result (λ page. IsWorldPage face (world_term self.old.world) seat page.text) }
        ensures legal { IfOk result (λ page. IsPage face (world_term self.old.world).history seat page.text) }
    {
        self.world.page(alloc, face, seat, steps)
    }

    /// Whether it met a fault of the disk, and takes no more.
    pub fn is_closed(&self) -> bool
        ensures { result ≡ self.now.closed }
    {
        self.closed
    }

    /// Its world, where nothing is prepared. Where it met no fault its disk holds the history, and a crash leaves just that.
    pub fn world(&self) -> &World
        ensures world { result.now ≡ self.now.world }
        ensures rest { result.now.next ≡ None }
        ensures settled { self.now.closed ≡ false → IsHonest (D.told self.now.disk)
            → HoldsJournal (D.told self.now.disk) (world_term self.now.world).history }
    {
        &self.world
    }

    /// Its disk. Where it met no fault it holds a journal of the history, and a crash leaves just that.
    pub fn finish(self) -> D
        ensures disk { result ≡ self.disk }
        ensures settled { self.closed ≡ false → IsHonest (D.told result) → HoldsJournal (D.told result) (world_term self.world).history }
    {
        let Journal { disk, .. } = self;
        disk
    }
}
