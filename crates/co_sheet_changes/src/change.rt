//! What a line becomes.

/// What a change is about.
#[derive(Clone, Copy)]
pub enum ChangeKind {
    /// Blanks in the name of a section, without which it names a section that is read.
    SectionName,
    /// A key of an object list with leading zeros.
    ListKey,
    /// DataType or AccessType of a sub-index 0, which is missing.
    SubIndex0,
    /// CompactSubObj: the sub-indices of an object of this index, from 0 to this number, get
    /// sections.
    CompactSubObj { index: u16, count: u8 },
    /// CompactPDO: this many communication and mapping objects of PDOs get sections. Bit 0 of
    /// `subs` is sub-index 1 of the communication objects.
    CompactPdo { count: u64, subs: u64 },
    /// SupportedObjects of the list that gets these communication and mapping objects.
    ListCount,
    /// A data type that isn't supported, replaced by one of as many bytes.
    DataType,
    /// A limit of a REAL32 or a REAL64, which has no order as bits.
    RealLimit,
    /// A value of a REAL32 or a REAL64, replaced by its bits.
    RealValue,
    /// A value of a UNICODE_STRING, replaced by its bytes in UTF-16.
    UnicodeValue,
    /// A limit of a signed number, where they are those of the unsigned type.
    UnsignedLimit,
    /// A value or a limit of a signed number, with its sign in more bytes than the type has.
    SignExtended,
    /// Blanks between the bytes of an OCTET_STRING.
    OctetBlanks,
    /// A line that is nothing but the mark by which DOS ends a file, 1Ah, or NUL bytes.
    EndMark,
    /// A number with a leading zero, written anew by the base that is requested.
    LeadingZero,
    /// A limit that is no number of its type.
    ForcedLimit,
    /// The number of entries of a mapping at fault, or a LowLimit that doesn't permit 0.
    ForcedMapping,
    /// Bit 30 of the COB-ID of the SYNC.
    ForcedSync,
}

/// A line that is changed: its number, from 1, what it was, and what comes in its place: lines,
/// each ended by LF.
#[derive(Drop)]
pub struct Change<'a> {
    pub line: usize,
    pub kind: ChangeKind,
    pub old: &'a [u8],
    pub new: Vec<u8>,
}

/// A piece of a text that is rewritten.
#[derive(Drop)]
pub enum Piece<'a> {
    /// A line as it is, without its end.
    Kept(&'a [u8]),
    Changed(Change<'a>),
    /// Lines that are added, each ended by LF, for a change of the line with this number.
    Added { line: usize, text: Vec<u8> },
}

/// What comes in a line's place, and why: lines, each ended by LF.
#[derive(Drop)]
pub struct Mended {
    pub kind: ChangeKind,
    pub new: Vec<u8>,
}
