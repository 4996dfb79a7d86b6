//! The names that a data sheet has of its vendor and its product.

ghost use Rattle.std.specs.Prelude.{◌≡◌, codes};
ghost use Rattle.std.specs.List.{list_any};
ghost use Rattle.std.specs.Option.{option_copied};
ghost use Rattle.co_sheet_changes.specs.Groups.{property_in, section_in, value_given};
ghost use Rattle.co_sheet_changes.specs.Views.{line_view};
ghost use Rattle.conode_compare_report.specs.SheetNames.{
  info_at,
  info_in,
  is_boot_up_master,
  is_counting_digit,
  is_info_after,
};

use co_sheet_changes::Line;
use co_sheet_text::{same_name, without_mark};
use co_text::split_line;

/// The names of a device, by the section DeviceInfo of its data sheet (CiA 306-1, device
/// information).
#[derive(Clone, Copy)]
pub struct SheetNames<'a> {
    /// VendorName.
    pub vendor: Option<&'a [u8]>,
    /// ProductName.
    pub product: Option<&'a [u8]>,
}

// the value that a line gives of a name, where it is in DeviceInfo
fn info_at<'a>(name: &[u8], within: bool, line: &Line<'a>) -> Option<&'a [u8]>
    ensures { option_copied result ≡ info_at name.now within (line_view line.now) }
{
    if !within {
        return None;
    }
    match line.property() {
        Some((given, value)) => {
            if same_name(given, name) {
                Some(value)
            } else {
                None
            }
        }
        None => None,
    }
}

// whether what comes after a line is in DeviceInfo
fn is_info_after(within: bool, line: &Line<'_>) -> bool
    ensures { result ≡ is_info_after within (line_view line.now) }
{
    match line.section() {
        Some(name) => same_name(name, b"DeviceInfo"),
        None => within,
    }
}

// the first value of a name in DeviceInfo
fn info_in<'a>(name: &[u8], text: &'a [u8]) -> Option<&'a [u8]>
    ensures { option_copied result ≡ info_in name.now text.now }
{
    let mut within = false;
    let mut rest = without_mark(text);
    while let Some((bytes, more)) = split_line(rest) {
        let line = Line { number: 0, bytes };
        if let Some(value) = info_at(name, within, &line) {
            return Some(value);
        }
        within = is_info_after(within, &line);
        rest = more;
    }
    None
}

// whether a value has a digit other than 0
fn has_counting_digit(value: &[u8]) -> bool
    ensures { result ≡ list_any is_counting_digit value.now }
{
    for byte in value {
        if b'1' <= *byte && *byte <= b'9' {
            return true;
        }
    }
    false
}

/// Whether the text of a data sheet says that the device may be the boot-up master
/// (SimpleBootUpMaster of DeviceInfo, CiA 306-1).
pub fn is_boot_up_master(text: &[u8]) -> bool
    ensures { result ≡ is_boot_up_master text.now }
{
    match info_in(b"SimpleBootUpMaster", text) {
        Some(value) => has_counting_digit(value),
        None => false,
    }
}

impl<'a> SheetNames<'a> {
    /// Those in the text of a data sheet.
    pub fn in_text(text: &'a [u8]) -> SheetNames<'a>
        ensures vendor { option_copied result.vendor ≡ info_in (codes "VendorName") text.now }
        ensures product { option_copied result.product ≡ info_in (codes "ProductName") text.now }
    {
        SheetNames {
            vendor: info_in(b"VendorName", text),
            product: info_in(b"ProductName", text),
        }
    }
}
