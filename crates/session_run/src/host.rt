use std::alloc::Global;

/// What the sessions of a serving run on.
#[derive(Drop)]
pub struct Host<'a, R, G> {
    /// Where their threads come from.
    pub rt: &'a R,
    pub alloc: Global,
    /// What each of them passes before its turns.
    pub gate: &'a G,
    /// Whether names and bytes of replies go once they were handed out with all before them, and a call was placed behind
    /// that. The log then has them for contracts alone.
    pub spares: bool,
}
