//! What is found at a line, before its words.

use co_dict_build::BuildFault;
use co_dict_faults::MappingFault;
use co_sheet::FaultKind;
use co_sheet_text_warnings::WarningKind;

/// The format of a text that is no data sheet of CANopen.
#[derive(Clone, Copy)]
pub enum OtherFormat {
    /// XML, as an XDD is (CiA 311).
    Xml,
    /// An EDS of EtherNet/IP.
    EtherNetIp,
    /// A text in UTF-16, by its byte order mark.
    Utf16,
    /// A text whose lines end with CR alone.
    CarriageReturns,
    /// A text without a section, as a recording is.
    NoSection,
    /// A text whose lines end with CR, CR and LF.
    DoubledReturns,
}

/// What is found.
#[derive(Clone, Copy)]
pub enum Subject {
    /// The text is of another format.
    Format(OtherFormat),
    /// A fault of the sheet.
    Fault(FaultKind),
    /// Why no dictionary can be built.
    Build(BuildFault),
    /// Why the initial value of a mapping's word, or of its count, can't be used.
    Mapping(MappingFault),
    /// What is legal, but suspicious.
    Warning(WarningKind),
}

/// What is found, and where.
#[derive(Clone, Copy)]
pub struct Mark {
    /// From 1; 0 if no line is to blame.
    pub line: usize,
    /// What is found.
    pub subject: Subject,
}
