//! An open multipart entity.

use crate::parts::boundary::Boundary;
use crate::parts::shape::DefaultType;

/// An open multipart entity.
#[derive(Drop)]
pub(crate) struct Frame {
    pub(crate) boundary: Boundary,
    /// The type of its pieces that don't name theirs.
    pub(crate) default: DefaultType,
    /// The number of depths that are left below its pieces.
    pub(crate) left: usize,
}
