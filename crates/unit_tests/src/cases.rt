// The cases that were tried.
use std::alloc::Global;
use std::io;
use worked_calls::row;

/// The cases that were tried, in their order.
#[derive(Drop)]
pub struct Cases {
    // Of each its family, its name, and whether it holds.
    rows: Vec<(&'static str, &'static str, bool)>,
    // Whether all of them hold.
    all: bool,
}

impl Cases {
    pub fn new(alloc: Global) -> Cases {
        Cases {
            rows: Vec::new(alloc),
            all: true,
        }
    }

    /// Adds a case. If memory runs out, not all cases hold.
    pub fn add(&mut self, family: &'static str, name: &'static str, holds: bool) {
        let added = self.rows.push((family, name, holds)).is_ok();
        self.all &= holds && added;
    }

    /// To be called if memory ran out: not all cases hold then.
    pub fn fail(&mut self) {
        self.all = false;
    }

    /// Prints a line for each case, and returns whether all hold.
    pub fn hold(&self, rt: &HostRuntime) -> io::Result<bool> {
        for (family, name, holds) in &self.rows {
            row(rt, family, name, *holds)?;
        }
        Ok(self.all)
    }
}
