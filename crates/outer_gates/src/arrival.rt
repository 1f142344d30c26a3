use task_model::Row;

/// What has come of a client's first request.
#[derive(Drop)]
pub(crate) enum Arrival {
    /// More bytes are wanted, and may come.
    Part,
    /// These bytes begin with it.
    Whole(Row<u8>),
    /// It never comes: the bytes have ended, a read failed, or memory ran out.
    Never,
}
