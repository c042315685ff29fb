//! Lower trees that are kept.

use crate::lower::LowerTree;
use std::alloc::{AllocError, Global};
use std::cell::RefCell;

/// Cells with lower trees. The cell of a tree is that of its upper leaf modulo their number; which tree a cell has is checked when it is
/// used.
#[derive(Drop)]
pub struct Trees {
    cells: Vec<RefCell<LowerTree>>,
}

impl Trees {
    /// No cell.
    pub fn none(alloc: Global) -> Trees {
        Trees {
            cells: Vec::new(alloc),
        }
    }

    /// A number of cells, each with this tree at first. All memory is allocated here.
    pub fn make(alloc: Global, tree: &LowerTree, count: u16) -> Result<Trees, AllocError> {
        let mut cells = Vec::with_capacity(alloc, usize::from(count))?;
        for _ in 0..count {
            cells.push(RefCell::new(tree.copied()))?;
        }
        Ok(Trees { cells })
    }

    /// The cell of the tree below an upper leaf.
    pub fn get(&self, j: u32) -> Option<&RefCell<LowerTree>> {
        let place = (j as usize).checked_rem(self.cells.len())?;
        self.cells.get(place)
    }
}
