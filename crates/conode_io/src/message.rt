//! What the program says if a command stops early.

use crate::fault::CmdFault;
use co_dict_build::BuildFault;
use co_sheet::SheetFault;

/// A line that says why a command stopped early.
#[derive(Clone, Copy)]
pub enum Message<'a> {
    /// Why it ended before its input did, as `stopped: BadLine 3`.
    Stopped(CmdFault),
    /// A data sheet's fault, as `fault 20 Memory line 0`.
    Fault(SheetFault),
    /// Why a data sheet makes no device, as `build fault 3 BadCobId 1800:01`.
    BuildFault(BuildFault),
    /// A file, by its name, that can't be read, as `cannot read NAME`.
    CannotRead(&'a str),
}
