/// Why not all of a listing was written.
#[derive(Clone, Copy, Debug, PartialEq, Eq)]
pub enum ListErr {
    /// The sink failed.
    Sink,
    /// Memory was refused.
    NoMemory,
}
