//! The words about a text that is no data sheet of CANopen.

ghost use Rattle.std.specs.Prelude.{◌≡◌};
ghost use Rattle.conode_lint.specs.FormatWords.{format_fix, format_meaning};

use conode_lint_marks::OtherFormat;

/// What it is, in one line.
pub fn format_meaning(format: OtherFormat) -> &'static str
    ensures { result.now ≡ format_meaning format }
{
    match format {
        OtherFormat::Xml => "this is XML, as an XDD (CiA 311) is, and no EDS",
        OtherFormat::EtherNetIp =>
            "this is an EDS of EtherNet/IP or DeviceNet, and none of CANopen",
        OtherFormat::Utf16 => "this is in UTF-16, and an EDS is in ASCII",
        OtherFormat::CarriageReturns => "this is one line, since its lines end with CR alone",
        OtherFormat::NoSection => "this is no EDS: it has no section of an object, as [1000]",
        OtherFormat::DoubledReturns => {
            "its lines end with CR, CR and LF, as after two conversions of line ends"
        }
    }
}

/// What to do, in one line.
pub(crate) fn format_fix(format: OtherFormat) -> &'static str
    ensures { result.now ≡ format_fix format }
{
    match format {
        OtherFormat::Xml => "export it as an EDS",
        OtherFormat::EtherNetIp => "ask the vendor for the EDS of its CANopen device",
        OtherFormat::Utf16 => "save it as UTF-8",
        OtherFormat::CarriageReturns => "end the lines with CR and LF, or with LF alone",
        OtherFormat::NoSection => {
            "lint a data sheet, EDS or DCF; a recording is no data sheet: conode explain reads it"
        }
        OtherFormat::DoubledReturns => {
            "end the lines with CR and LF, or with LF alone, or try conode adapt"
        }
    }
}
