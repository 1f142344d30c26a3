use html_pages::Fragments;

/// What pages are made from: the version of a legal history, and the fragments of its state's widgets.
#[derive(Drop)]
pub struct Moment {
    /// The number of inputs taken.
    pub version: u64,
    /// The fragments of the state's widgets, in pre-order.
    pub fragments: Fragments,
}
