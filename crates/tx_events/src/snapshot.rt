//! What a snapshot holds.
use crate::FullXid;
use crate::sequence::IdList;

/// What a snapshot holds (`SnapshotData`): no id below `xmin` runs, none at or past `xmax` counts as ended, and
/// between them those of `xip` (top-level ids) and `subxip` run, ascending. Where `overflowed`, `subxip` is empty
/// and parents have to be asked.
#[derive(Drop)]
pub struct SnapData {
    pub xmin: FullXid,
    pub xmax: FullXid,
    pub xip: IdList,
    pub subxip: IdList,
    pub overflowed: bool,
}
