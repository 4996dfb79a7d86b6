//! An entry, read from its section.

ghost use Rattle.std.specs.Prelude.{
  ◌≡◌,
  ◌==◌,
  ◌++◌,
  true,
  false,
  codes,
  map,
  option_map,
  Some,
  None,
  IfOk,
  OnOk,
  IfErr,
  [],
};
ghost use Rattle.std.specs.Option.{option_map_or, option_or};
ghost use Rattle.std.specs.Result.{result_err};
ghost use Rattle.co_sheet.specs.Entries.{is_domain, type_code, data_type_of, access_of, is_mappable};
ghost use Rattle.co_sheet.specs.Limits.{at_most, is_in_type, is_numeric};
ghost use Rattle.co_sheet.specs.Checks.{
  at_key,
  missing_key,
  unread_number,
  unread_limit,
  unread_default,
  unread_defaults,
  unread_entry_numbers,
  type_line,
  is_bad_type,
  in_numeric,
  unread_limits,
  bad_access,
};
ghost use Rattle.co_sheet.specs.Accepted.{least_fault, IsAnswered};
ghost use Rattle.co_sheet.specs.private.EntryReadings.{
  IsGiven,
  fault_in,
  entry_rows,
  entry_finding,
  first_in,
  type_finding,
  value_finding,
  IsNumberAt,
  IsLimitAt,
  IsDefaultAt,
  IsStatedAt,
  AreValues,
  value_of,
  outside,
  crossed,
  rests,
  limits_found,
  preset_of,
  is_other_default,
  default_found,
  defaults_found,
};
ghost use Rattle.co_sheet.specs.Content.{row_of};
ghost use Rattle.co_sheet_text.specs.Sections.{property_at};
ghost use Rattle.co_sheet_text.specs.Views.{property_view};
ghost use Rattle.co_sheet.specs.SectionViews.{entry_view};
ghost use Rattle.co_sheet.specs.SheetViews.{row_view};
ghost use Rattle.co_sheet.specs.Views.{default_view};

use crate::checks::faults::{both, earlier, fault_if, unread};
use crate::checks::findings::{Finding, checked, sooner};
use crate::data_type::{data_type_with, is_left_out};
use crate::entry::{access_with, is_pairs, numeric_default};
use crate::rows::name_of;
use crate::tables::EntrySection;
use co_profile::{Access, fixed_type};
use co_sheet_rows::{EntryRow, FaultKind, Preset, SheetFault};
use co_sheet_text::{Property, signed_numeral, unsigned_number};
use co_value::DataType;

/// A limit of a numeric entry, and the line that states it.
#[derive(Clone, Copy)]
pub(crate) struct Limit {
    value: i128,
    line: usize,
}

/// The value that DefaultValue or ParameterValue states, and its line.
#[derive(Clone, Copy)]
pub(crate) struct Stated<'a> {
    preset: Preset<'a>,
    line: usize,
}

/// What an entry states of its values.
#[derive(Clone, Copy)]
pub(crate) struct Values<'a> {
    low: Option<Limit>,
    high: Option<Limit>,
    /// DefaultValue.
    default: Option<Stated<'a>>,
    /// ParameterValue.
    parameter: Option<Stated<'a>>,
}

/// Whether the first number is at most the second; true where either is absent.
pub fn at_most(low: Option<i128>, high: Option<i128>) -> bool
    ensures { result ≡ at_most low high }
{
    match (low, high) {
        (Some(low), Some(high)) => low <= high,
        _ => true,
    }
}

/// Whether a number is one of a numeric type.
pub fn is_in_type(data_type: DataType, value: i128) -> bool
    ensures { result ≡ is_in_type data_type value }
{
    at_most(data_type.least(), Some(value)) && at_most(Some(value), data_type.greatest())
}

// the number at a key, where it is given
fn number_at(given: Option<Property>) -> Result<Option<u64>, SheetFault>
    ensures fault { result_err result ≡ fault_in unread_number given.entry }
    ensures value { IfOk result (IsNumberAt (option_map property_view given.entry)) }
{
    let Some(given) = given else {
        return Ok(None);
    };
    match unsigned_number(given.value) {
        Ok(number) => Ok(Some(number)),
        Err(fault) => Err(unread(fault, given.line)),
    }
}

// the limit at a key of a numeric entry, where it is given
fn limit_at(data_type: DataType, given: Option<Property>) -> Result<Option<Limit>, SheetFault>
    ensures fault { result_err result ≡ fault_in (unread_limit data_type) given.entry }
    ensures value { IfOk result (IsLimitAt data_type (option_map property_view given.entry)) }
{
    let Some(given) = given else {
        return Ok(None);
    };
    match signed_numeral(given.value) {
        Ok(numeral) => Ok(Some(Limit {
            value: numeral.value_at(data_type),
            line: given.line,
        })),
        Err(fault) => Err(unread(fault, given.line)),
    }
}

// the default at a key of a numeric entry, where it is given
fn default_at(
    data_type: DataType,
    given: Option<Property>,
) -> Result<Option<Stated<'static>>, SheetFault>
    ensures fault { result_err result ≡ fault_in (unread_default data_type) given.entry }
    ensures value { IfOk result (IsDefaultAt data_type (option_map property_view given.entry)) }
{
    let Some(given) = given else {
        return Ok(None);
    };
    match numeric_default(data_type, given.value) {
        Ok(preset) => Ok(Some(Stated {
            preset,
            line: given.line,
        })),
        Err(fault) => Err(unread(fault, given.line)),
    }
}

fn outside(data_type: DataType, limit: Option<Limit>) -> Option<SheetFault>
    ensures { result ≡ least_fault (option_map_or (outside data_type) limit []) }
{
    let limit = limit?;
    let is_inside = is_in_type(data_type, limit.value);
    fault_if(!is_inside, FaultKind::BadLimits, limit.line)
}

fn value_of(limit: Option<Limit>) -> Option<i128>
    ensures { result ≡ value_of limit }
{
    Some(limit?.value)
}

// whether a low limit is outside the type's range, on an earlier line than the high one
fn rests(data_type: DataType, low: Option<Limit>, high: Option<Limit>) -> bool
    ensures { result ≡ rests data_type low high }
{
    match (low, high) {
        (Some(low), Some(high)) => low.line < high.line && !is_in_type(data_type, low.value),
        _ => false,
    }
}

// a low limit above the high one, on the high one's line, or else the low one's; not where that
// rests on a fault before it
fn crossed(data_type: DataType, low: Option<Limit>, high: Option<Limit>) -> Option<SheetFault>
    ensures { result
        ≡ least_fault (option_map_or (crossed data_type low high) (option_or high low) []) }
{
    let last = high.or(low)?;
    let lowest = value_of(low).or(data_type.least());
    let highest = value_of(high).or(data_type.greatest());
    let is_crossed = !at_most(lowest, highest) && !rests(data_type, low, high);
    fault_if(is_crossed, FaultKind::BadLimits, last.line)
}

// the default at a key of a string or a domain; a domain's is passed over
fn text_default(data_type: DataType, given: Option<Property<'_>>) -> Option<Stated<'_>>
    requires { is_numeric data_type ≡ false }
    ensures { IsStatedAt data_type (option_map property_view given.entry) result }
{
    let given = given?;
    let preset = match data_type {
        DataType::VisibleString => Preset::Text(given.value),
        DataType::OctetString => Preset::Pairs(given.value),
        _ => Preset::Absent,
    };
    Some(Stated {
        preset,
        line: given.line,
    })
}

impl<'a> Values<'a> {
    // the value that the entry begins with: ParameterValue's, or where it is absent DefaultValue's
    fn preset(&self) -> Preset<'a>
        ensures { default_view result ≡ preset_of (option_or self.now.parameter self.now.default) }
    {
        match self.parameter.or(self.default) {
            Some(stated) => stated.preset,
            None => Preset::Absent,
        }
    }

    // a limit outside the type's range, or a low limit above the high one
    fn limits_fault(&self, data_type: DataType) -> Option<SheetFault>
        ensures { result ≡ least_fault (limits_found data_type self.now.low self.now.high) }
    {
        let of_low = outside(data_type, self.low);
        let of_high = outside(data_type, self.high);
        let of_each = earlier(of_low, of_high);
        let of_both = crossed(data_type, self.low, self.high);
        earlier(of_each, of_both)
    }

    // whether a default is a number outside the type or the limits, or no pairs of digits
    fn is_default_bad(&self, data_type: DataType, preset: Preset) -> bool
        ensures { result ≡ is_other_default data_type self.now preset.entry }
    {
        match preset {
            Preset::Number(value) => {
                !(is_in_type(data_type, value)
                    && at_most(value_of(self.low), Some(value))
                    && at_most(Some(value), value_of(self.high)))
            }
            Preset::Pairs(digits) => !is_pairs(digits),
            Preset::Absent | Preset::NodeId(_) | Preset::Text(_) => false,
        }
    }

    fn default_fault(&self, data_type: DataType, stated: Option<Stated>) -> Option<SheetFault>
        ensures { result
            ≡ least_fault (option_map_or (default_found data_type self.now) stated.entry []) }
    {
        let stated = stated?;
        let is_bad = self.is_default_bad(data_type, stated.preset);
        fault_if(is_bad, FaultKind::BadDefault, stated.line)
    }

    // a bad default; of two the one with the smaller line
    fn defaults_fault(&self, data_type: DataType) -> Option<SheetFault>
        ensures { result ≡ least_fault (defaults_found data_type self.now) }
    {
        let of_default = self.default_fault(data_type, self.default);
        let of_parameter = self.default_fault(data_type, self.parameter);
        earlier(of_default, of_parameter)
    }
}

impl<'s, 'a> EntrySection<'s, 'a> {
    /// Whether the entry is a DOMAIN by its object type.
    pub fn is_domain(&self) -> bool
        ensures { result ≡ is_domain (entry_view self.now) }
    {
        match self.section.property(b"ObjectType") {
            Some(given) => given.number() == Some(2),
            None => false,
        }
    }

    // an entry without DataType or AccessType, which object type 2 needs neither of
    fn missing_key(
        &self,
        domain: bool,
        type_given: Option<Property>,
        access_given: Option<Property>,
    ) -> Option<SheetFault>
        requires domain { domain ≡ is_domain (entry_view self.now) }
        requires type_given { IsGiven (codes "DataType") type_given (entry_view self.now) }
        requires access_given { IsGiven (codes "AccessType") access_given (entry_view self.now) }
        ensures { result ≡ least_fault (missing_key (entry_view self.now)) }
    {
        let is_missing = !domain && (type_given.is_none() || access_given.is_none());
        fault_if(is_missing, FaultKind::MissingKey, self.section.line)
    }

    // the line of DataType, or of the section where there is none
    fn type_line(&self, type_given: Option<Property>) -> usize
        requires { IsGiven (codes "DataType") type_given (entry_view self.now) }
        ensures { result ≡ type_line (entry_view self.now) }
    {
        match type_given {
            Some(given) => given.line,
            None => self.section.line,
        }
    }

    // the numbers DataType, DOMAIN's where object type 2 states none, and PDOMapping
    fn numbers(&self, type_given: Option<Property>) -> Result<(u64, bool), SheetFault>
        requires given { IsGiven (codes "DataType") type_given (entry_view self.now) }
        requires domain { type_given ≡ None → is_domain (entry_view self.now) ≡ true }
        ensures fault { result_err result
            ≡ least_fault (unread_entry_numbers (entry_view self.now)) }
        ensures code { IfOk result (λ v. type_code (entry_view self.now) ≡ Some v.0) }
        ensures mappable { IfOk result (λ v. is_mappable (entry_view self.now) ≡ v.1) }
    {
        let mapping_given = self.section.property(b"PDOMapping");
        let (code, mapping) = both(number_at(type_given), number_at(mapping_given))?;
        let is_mappable = match mapping {
            Some(number) => number != 0,
            None => false,
        };
        Ok((code.unwrap_or(0x0F), is_mappable))
    }

    /// Whether the code of its DataType is no type's, isn't DOMAIN's at object type 2, or isn't
    /// that of the type that is fixed for its key (CiA 301, object dictionary).
    pub fn is_bad_type(&self, domain: bool, code: u64) -> bool
        requires { domain ≡ is_domain (entry_view self.now) }
        ensures { result ≡ is_bad_type (entry_view self.now) code }
    {
        let is_other = match fixed_type(self.key) {
            Some(fixed) => code != u64::from(fixed.code()),
            None => false,
        };
        (data_type_with(code).is_none() && !is_left_out(code))
            || (domain && code != 0x0F)
            || is_other
    }

    // the data type of a code, if it is supported, and the one that object type and key require
    fn data_type(&self, domain: bool, code: u64, line: usize) -> Result<DataType, Finding>
        requires domain { domain ≡ is_domain (entry_view self.now) }
        requires code { type_code (entry_view self.now) ≡ Some code }
        requires line { line ≡ type_line (entry_view self.now) }
        ensures finding { result_err result ≡ type_finding (entry_view self.now) }
        ensures read { IfOk result (λ t. data_type_of (entry_view self.now) ≡ Some t) }
    {
        if self.is_bad_type(domain, code) {
            let kind = FaultKind::BadType;
            return Err(Finding {
                check: 12,
                fault: SheetFault { kind, line },
            });
        }
        data_type_with(code).ok_or(Finding {
            check: 13,
            fault: SheetFault {
                kind: FaultKind::LeftOutType,
                line,
            },
        })
    }

    // the access of a word, rw where object type 2 states none
    fn access(&self, given: Option<Property>) -> Result<Access, SheetFault>
        requires given { IsGiven (codes "AccessType") given (entry_view self.now) }
        requires domain { given ≡ None → is_domain (entry_view self.now) ≡ true }
        ensures fault { result_err result ≡ least_fault (bad_access (entry_view self.now)) }
        ensures access { IfOk result (λ access. access_of (entry_view self.now) ≡ Some access) }
    {
        let Some(given) = given else {
            return Ok(Access::Rw);
        };
        access_with(given.value).ok_or(SheetFault {
            kind: FaultKind::BadAccess,
            line: given.line,
        })
    }

    // the limits of a numeric entry
    fn limits(&self, data_type: DataType) -> Result<(Option<Limit>, Option<Limit>), SheetFault>
        ensures fault { let section = (entry_view self.now).section in
            result_err result
            ≡ least_fault (at_key (unread_limit data_type) (codes "LowLimit") section
            ++ at_key (unread_limit data_type) (codes "HighLimit") section) }
        ensures low { IfOk result (λ v. IsLimitAt data_type
            (property_at (codes "LowLimit") (entry_view self.now).section) v.0) }
        ensures high { IfOk result (λ v. IsLimitAt data_type
            (property_at (codes "HighLimit") (entry_view self.now).section) v.1) }
    {
        let low_given = self.section.property(b"LowLimit");
        let high_given = self.section.property(b"HighLimit");
        both(
            limit_at(data_type, low_given),
            limit_at(data_type, high_given),
        )
    }

    // DefaultValue and ParameterValue of a numeric entry
    fn defaults(
        &self,
        data_type: DataType,
    ) -> Result<(Option<Stated<'static>>, Option<Stated<'static>>), SheetFault>
        ensures fault { result_err result
            ≡ least_fault (unread_defaults data_type (entry_view self.now)) }
        ensures default { IfOk result (λ v. IsDefaultAt data_type
            (property_at (codes "DefaultValue") (entry_view self.now).section) v.0) }
        ensures parameter { IfOk result (λ v. IsDefaultAt data_type
            (property_at (codes "ParameterValue") (entry_view self.now).section) v.1) }
    {
        let default_given = self.section.property(b"DefaultValue");
        let parameter_given = self.section.property(b"ParameterValue");
        both(
            default_at(data_type, default_given),
            default_at(data_type, parameter_given),
        )
    }

    // what the entry of a string or a domain states; it has no limits
    fn text_values(&self, data_type: DataType) -> Values<'a>
        requires other { is_numeric data_type ≡ false }
        requires read { data_type_of (entry_view self.now) ≡ Some data_type }
        ensures { AreValues data_type (entry_view self.now) result }
    {
        let default_given = self.section.property(b"DefaultValue");
        let parameter_given = self.section.property(b"ParameterValue");
        Values {
            low: None,
            high: None,
            default: text_default(data_type, default_given),
            parameter: text_default(data_type, parameter_given),
        }
    }

    // the limits and the defaults of an entry
    fn stated(&self, data_type: DataType) -> Result<Values<'a>, SheetFault>
        requires { data_type_of (entry_view self.now) ≡ Some data_type }
        ensures fault { result_err result
            ≡ least_fault (in_numeric unread_limits (entry_view self.now)) }
        ensures values { IfOk result (AreValues data_type (entry_view self.now)) }
    {
        if data_type.width().is_none() {
            return Ok(self.text_values(data_type));
        }
        let limits = self.limits(data_type);
        let defaults = self.defaults(data_type);
        let ((low, high), (default, parameter)) = both(limits, defaults)?;
        Ok(Values {
            low,
            high,
            default,
            parameter,
        })
    }

    // the limits and the defaults, within the type and in order
    fn values(&self, data_type: DataType) -> Result<Values<'a>, Finding>
        requires { data_type_of (entry_view self.now) ≡ Some data_type }
        ensures finding { result_err result ≡ value_finding (entry_view self.now) }
        ensures values { IfOk result (AreValues data_type (entry_view self.now)) }
    {
        let values = checked(15, self.stated(data_type))?;
        if let Some(fault) = values.limits_fault(data_type) {
            return Err(Finding { check: 16, fault });
        }
        match values.defaults_fault(data_type) {
            Some(fault) => Err(Finding { check: 17, fault }),
            None => Ok(values),
        }
    }

    /// The row of the entry, or what the first of its checks that finds anything finds (CiA 306,
    /// object description).
    pub(crate) fn read(&self) -> Result<EntryRow<'a>, Finding>
        ensures finding { result_err result ≡ entry_finding (entry_view self.now) }
        ensures row { IfOk result (λ row. row_of (entry_view self.now) ≡ Some (row_view row)) }
    {
        let section = self.section;
        let is_domain = self.is_domain();
        let type_given = section.property(b"DataType");
        let access_given = section.property(b"AccessType");
        if let Some(fault) = self.missing_key(is_domain, type_given, access_given) {
            return Err(Finding { check: 10, fault });
        }
        let (code, mappable) = checked(11, self.numbers(type_given))?;
        let data_type = self.data_type(is_domain, code, self.type_line(type_given))?;
        let access = checked(14, self.access(access_given))?;
        let values = self.values(data_type)?;
        Ok(EntryRow {
            key: self.key,
            data_type,
            access,
            low: value_of(values.low),
            high: value_of(values.high),
            default: values.preset(),
            mappable,
            name: name_of(section),
            line: section.line,
        })
    }
}

/// Adds the row of each entry. `Err`: the fault that is found first in any of them; out of memory
/// has no line.
pub(crate) fn read_entries<'a>(
    rows: &mut Vec<EntryRow<'a>>,
    entries: &[EntrySection<'_, 'a>],
) -> Result<(), SheetFault>
    ensures rows { OnOk result (entry_rows rows.new.items
        ≡ entry_rows rows.old.items ++ map row_of (map entry_view entries.now)) }
    ensures none { OnOk result (first_in (map entry_view entries.now) ≡ None) }
    ensures err { IfErr result (IsAnswered (first_in (map entry_view entries.now))) }
{
    let mut first = None;
    for entry in entries {
        match entry.read() {
            Ok(row) => rows.push(row)?,
            Err(found) => first = sooner(first, Some(found)),
        }
    }
    match first {
        Some(found) => Err(found.fault),
        None => Ok(()),
    }
}
