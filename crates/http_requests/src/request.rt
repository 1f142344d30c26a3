use crate::asked::Asked;

/// A request: what it asks for, whether it asks for the end of the connection, and how many bytes it takes
/// (docs/FORMATS.md, "HTTP").
#[derive(Drop)]
pub struct Request {
    pub asked: Asked,
    pub closes: bool,
    pub length: u64,
}
