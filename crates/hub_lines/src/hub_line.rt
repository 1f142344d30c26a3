use input_lines::Line;

/// The number of a world, which counts from 1, and what a line asks for there.
#[derive(Drop)]
pub struct HubLine {
    pub world: u8,
    pub line: Line,
}
