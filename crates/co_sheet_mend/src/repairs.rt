//! The repairs of the lines at fault of a text.

ghost use Rattle.std.specs.Prelude.{◌≡◌, IfOk, OnOk};
ghost use Rattle.co_sheet_faults.specs.AllFaults.{faults_of};
ghost use Rattle.co_sheet_mend.specs.Repairs.{repair_at, repair_here, stronger};
ghost use Rattle.co_sheet_mend.specs.ReadableTexts.{repair_in};

use crate::repair::{Repair, repair_for, stronger};
use co_sheet_faults::{SheetFault, find_faults};
use indexmap::IndexMap;
use std::alloc::{AllocError, Global};

/// The repairs of lines, by their numbers.
#[derive(Drop)]
pub(crate) struct Repairs {
    by_line: IndexMap<usize, Repair>,
}

impl Repairs {
    /// The repair of a line.
    pub(crate) fn at(&self, line: usize) -> Option<Repair>
        ensures { result ≡ repair_in self.now line }
    {
        Some(*self.by_line.get(&line)?)
    }

    // adds what a fault asks for
    fn add(&mut self, fault: SheetFault) -> Result<(), AllocError>
        ensures { OnOk result ((line : _) → repair_in self.new line
            ≡ stronger (repair_in self.old line) (repair_here line fault)) }
    {
        let Some(repair) = stronger(self.at(fault.line), repair_for(fault.kind)) else {
            return Ok(());
        };
        self.by_line.insert(fault.line, repair)?;
        Ok(())
    }

    // the repairs for faults
    fn of(alloc: Global, faults: &[SheetFault]) -> Result<Repairs, AllocError>
        ensures { IfOk result (λ made. (line : _) → repair_in made line
            ≡ repair_at faults.now line) }
    {
        let mut made = Repairs {
            by_line: IndexMap::new(alloc),
        };
        for fault in faults {
            made.add(*fault)?;
        }
        Ok(made)
    }

    /// The repairs of the lines of a text. `Err`: out of memory.
    pub(crate) fn in_text(alloc: Global, text: &[u8]) -> Result<Repairs, AllocError>
        ensures { IfOk result (λ made. (line : _) →
            repair_in made line ≡ repair_at (faults_of text.now) line) }
    {
        let faults = find_faults(alloc, text)?;
        Repairs::of(alloc, faults.as_slice())
    }
}
