ghost use Rattle.session_gate.specs.Sendings.{Sending};

use outer_io::{Link, Written, write_all};

/// Writes a reply, in one write where the link takes it so.
pub(crate) fn send<K: Link>(link: &mut K, reply: &[u8]) -> Written
    ensures { Sending (K.told link.old) (K.told link.new) reply.now result }
{
    write_all(link, reply)
}
