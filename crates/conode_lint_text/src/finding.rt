//! What `lint` finds.

use crate::fact::Fact;
use co_sheet_text_warnings::KnownKey;
use co_sheet_warnings::FixedAccess;

/// The severity of a finding.
#[derive(Clone, Copy)]
pub enum Severity {
    /// A fault: the sheet is refused, or no dictionary can be built from it.
    Error,
    /// Legal, but suspicious.
    Warning,
}

/// Which part of its line a finding is about.
#[derive(Clone, Copy)]
pub enum Place {
    /// The whole line, from its first character that is no blank.
    Beginning,
    /// The value, after `=`.
    Value,
}

/// What a finding is about, if its line doesn't show it.
#[derive(Clone, Copy)]
pub enum About {
    /// The line.
    Line,
    /// An object, by its index.
    Object(u16),
    /// An entry, by its index and its sub-index.
    Entry(u16, u8),
    /// An entry with a sum with `$NODEID`, and the first and the last node-ID for which it is right.
    Sum(u16, u8, u8, u8),
    /// The same of a sum that is right for none.
    NoSum(u16, u8),
    /// The count of a PDO's mapping, by the index of the mapping, and how many bits it maps in all.
    Bits(u16, u16),
    /// What comes a second time, by the line of the first.
    FirstAt(usize),
    /// A key that the standard doesn't have, by the one that is meant.
    Misspelt(KnownKey),
    /// The same, where the one that is meant is there too.
    MisspeltBeside(KnownKey),
    /// A listed object without a section, by the index that names the section.
    NoSection(u16),
    /// The same of an object of a PDO, where CompactPDO describes PDOs without sections.
    CompactPdo(u16),
    /// An access other than this one, which CiA 301 has for the entry.
    Access(FixedAccess),
    /// What the sheet has there, which is said in place of what is wrong.
    Fact(Fact),
}

/// What is found at a line of a file.
#[derive(Clone, Copy)]
pub struct Finding<'a> {
    /// From 1; 0 if no line is to blame.
    pub line: usize,
    /// Which part of the line it is about.
    pub place: Place,
    /// What it is about, if the line doesn't show it.
    pub about: About,
    /// How severe it is.
    pub severity: Severity,
    /// The name of its kind, as `BadList`.
    pub name: &'a str,
    /// What is wrong.
    pub meaning: &'a str,
    /// How to fix it.
    pub fix: &'a str,
    /// The subject of the standard that has the rule; empty if none has.
    pub subject: &'a str,
    /// The line as it is in the file, without its end.
    pub text: &'a [u8],
}

/// A kind of finding, as a log of SARIF lists it.
#[derive(Clone, Copy)]
pub struct Rule<'a> {
    /// The name of the kind, as `BadList`.
    pub name: &'a str,
    /// How severe its findings are.
    pub severity: Severity,
    /// What is wrong.
    pub meaning: &'a str,
    /// How to fix it.
    pub fix: &'a str,
    /// The subject of the standard that has the rule; empty if none has.
    pub subject: &'a str,
}
