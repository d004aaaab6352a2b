// Which drawing.

use crate::own::Side;

/// Which drawing: its report, its inode, and the place before which two journals part.
#[derive(Clone, Copy)]
pub struct View {
    pub side: Side,
    pub inode: u64,
    pub parts: Option<u32>,
}
