/// The numbers of `serve`, each within its range (docs/FORMATS.md, "Words").
#[derive(Clone, Copy)]
pub struct ServeWords {
    /// The budget of the opening and of each input, in units: 1 to 1,000,000.
    pub budget: u32,
    /// How many seats there are: 1 to 64.
    pub seats: u8,
    /// How many threads answer connections: 1 to 32.
    pub workers: u8,
    /// The port that is listened on: 1 to 65,535.
    pub port: u16,
    /// How many connections are taken: 1 to 1,000,000.
    pub connections: u64,
}
