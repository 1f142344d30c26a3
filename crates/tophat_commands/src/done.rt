/// What came of the words of a command line: the status, and the gate that was served, where one was had.
#[derive(Drop)]
pub struct Done<G: Drop> {
    pub status: u8,
    pub gate: Option<G>,
}
