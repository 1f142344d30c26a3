ghost use Rattle.std.specs.Prelude.{◌≡◌, ◌≤◌};
ghost use Rattle.outer_io.specs.Causes.{Rose};
ghost use Rattle.outer_io.specs.Links.{LinkTold};
ghost use Rattle.outer_gates.specs.Gates.{Accepts, Finishes, GateTold, faults_after_accept};

use crate::accept::Accept;
use outer_io::Link;

/// Where connections come from, and where they are given back.
pub trait Gate: Send + Drop {
    type Link: Link + Send + Drop;

    // All that the gate tells.
    ghost told: { Self → GateTold };

    // All that one of its links tells.
    ghost tells: { Self.Link → LinkTold };

    /// Hands out the first of the links that are left, or answers `Closed` where none is. It may wait. After `Failed` the
    /// links that are left are as before.
    fn accept(&mut self) -> Accept<Self::Link>
        ensures links { Accepts tells (told self.old) (told self.new) result }
        ensures finished { (told self.new).finished ≡ (told self.old).finished }
        ensures count { (told self.old).faults ≤ (told self.new).faults }
        ensures failed { result ≡ Accept.Failed → Rose (told self.old).faults (told self.new).faults }
        ensures exact { (told self.new).faults ≡ faults_after_accept (told self.old).faults result };

    /// Takes a link back with which nothing more is done. It takes no memory, and waits for nobody.
    fn finish(&mut self, link: Self::Link)
        ensures finished { Finishes (told self.old).finished (told self.new).finished (tells link) }
        ensures left { (told self.new).left ≡ (told self.old).left }
        ensures count { (told self.new).faults ≡ (told self.old).faults };

    // What is told of a link is what the link tells.
    ghost tells_links: { (l : Self.Link) → tells l ≡ Self.Link.told l };
}
