use task_model::Entry;

/// What a line asks for: nothing, a seat's page, or that an input be taken.
#[derive(Drop)]
pub enum Line {
    Blank,
    Show { seat: u8 },
    Act(Entry),
}
