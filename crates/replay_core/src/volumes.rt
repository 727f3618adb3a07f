//! The volumes of the stores' pages.

/// Those of all stores, one for each bank.
#[derive(Drop)]
pub(crate) struct PageVolumes<P> {
    pub(crate) xact: Vec<P>,
    pub(crate) subtrans: Vec<P>,
    pub(crate) offsets: Vec<P>,
    pub(crate) members: Vec<P>,
}
