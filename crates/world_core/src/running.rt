ghost use Rattle.std.specs.Prelude.{◌≡◌, ◌<◌, [], ◌∷◌, ◌++◌, map, IfOk, None, OnErr};
ghost use Rattle.std.specs.List.{All};
ghost use Rattle.task_model.specs.Terms.Input.{entry_term};
ghost use Rattle.task_model.specs.Running.State.{IsSeat};
ghost use Rattle.world_core.specs.World.{world_term, Replies};
ghost use Rattle.world_core.specs.Replying.{Runs, reply_answer};

use crate::answers::{Reply, RunStop, Taken};
use crate::world::World;
use std::alloc::Global;
use task_model::{ActStop, Entry, OutOfMemory, Row, copy_input};

impl World {
    /// Takes entries in order, each at the world that the ones before it led to, where nothing is prepared. Where memory runs out, the
    /// entries in front were handled and have their replies, and the others weren't handled.
    pub fn run(&mut self, alloc: Global, entries: &[Entry]) -> Result<Row<Reply>, RunStop>
        requires rest { self.old.next ≡ None }
        requires seats { All (λ e. IsSeat e.seat) entries.now }
        ensures { Runs (world_term self.old) (map entry_term entries.now) (world_term self.new) result }
    {
        let mut done = Row::new(alloc);
        for entry in entries {
            if done.reserve(1).is_err() {
                return Err(RunStop { done });
            }
            match self.reply(alloc, entry) {
                Ok(reply) => push_reply(&mut done, reply),
                Err(OutOfMemory) => return Err(RunStop { done }),
            }
        }
        Ok(done)
    }

    // The reply to an entry.
    fn reply(&mut self, alloc: Global, entry: &Entry) -> Result<Reply, OutOfMemory>
        requires rest { self.old.next ≡ None }
        requires seat { IsSeat entry.now.seat }
        ensures rest { self.new.next ≡ None }
        ensures replies { IfOk result (λ r. Replies (world_term self.old) (entry_term entry.now) (world_term self.new) (reply_answer r)) }
        ensures refused { OnErr result (world_term self.new ≡ world_term self.old) }
    {
        let input = copy_input(alloc, &entry.input)?;
        match self.handle(entry.seat, input) {
            Ok(Taken { version }) => Ok(Reply::Taken(version)),
            Err(ActStop::NotOffered) => Ok(Reply::NotOffered),
            Err(ActStop::Over) => Ok(Reply::Over),
            Err(ActStop::Memory) => Err(OutOfMemory),
        }
    }
}

// A reply, for which there is room.
fn push_reply(done: &mut Row<Reply>, reply: Reply)
    requires { 0 < done.old.spare }
    ensures { done.new.list ≡ done.old.list ++ reply ∷ [] }
{
    match done.push(reply) {
        Ok(()) => {}
        Err(OutOfMemory) => unreachable!(),
    }
}
