ghost use Rattle.std.specs.Prelude.{◌≡◌, ◌<◌, [], ℕ, IfOk, IfNone, IfSome, List, Some, length, map, slice_get, vec_len};
ghost use Rattle.std.specs.List.{All};
ghost use Rattle.task_model.specs.Terms.Text.{Text};
ghost use Rattle.hub_lines.specs.HubLines.{IsWorldNumber};
ghost use Rattle.hub_lines.specs.OwnLines.{addressed};
ghost use Rattle.hub_lines.specs.Queues.{AreCounted, StandAtOwn, TookAt};

use crate::hub_line::HubLine;
use std::alloc::Global;
use std::collections::VecDeque;
use task_model::{OutOfMemory, Row};

/// The texts of each world, put where its own lines stand.
pub fn in_order(
    alloc: Global,
    queues: Vec<VecDeque<Row<u8>>>,
    lines: &[HubLine],
) -> Result<Vec<Row<u8>>, OutOfMemory>
    requires names { All (λ l. IsWorldNumber (length queues.items) l.world) lines.now }
    requires counts { AreCounted 1 (map (λ q. map (λ t. t.list) q.items) queues.items) (map addressed lines.now) }
    ensures count { IfOk result (λ texts. length texts.items ≡ length lines.now) }
    ensures each { IfOk result (λ texts. StandAtOwn 1 (map (λ q. map (λ t. t.list) q.items) queues.items) (map addressed lines.now)
        (map (λ t. t.list) texts.items)) }
{
    let mut left = queues;
    let mut texts = Vec::new(alloc);
    for line in lines {
        match next_text(&mut left, usize::from(line.world) - 1) {
            Some(text) => texts.push(text)?,
            // There are as many texts as lines.
            None => unreachable!(),
        }
    }
    Ok(texts)
}

/// Takes the first text of the queue at this place.
fn next_text(queues: &mut Vec<VecDeque<Row<u8>>>, at: usize) -> Option<Row<u8>>
    requires { at < length queues.old.items }
    ensures len { length queues.new.items ≡ length queues.old.items }
    ensures some { IfSome result (λ text. TookAt at (map (λ q. map (λ t. t.list) q.items) queues.old.items)
        (map (λ q. map (λ t. t.list) q.items) queues.new.items) text.list) }
    ensures none { IfNone result ((queue : List Text) → slice_get (map (λ q. map (λ t. t.list) q.items) queues.old.items) at ≡ Some queue
        → queue ≡ []) }
{
    queues[at].pop_front()
}
