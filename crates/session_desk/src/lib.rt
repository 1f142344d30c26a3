//! A seat at a world: what may be asked there, and why a page isn't given. Those that serve seats and those that are served at them meet in
//! these words alone. (docs/RULES.md, "Desks".)
#![tactic(auto)]

mod desk;
mod page_stop;
mod view_stop;

pub use desk::Desk;
pub use page_stop::PageStop;
pub use view_stop::ViewStop;
