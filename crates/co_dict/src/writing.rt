//! Why a writing is refused, by SDO and by the application.

ghost use Rattle.std.specs.Prelude.{◌≡◌, ◌||◌, Some, None, true, length, is_some, OnOk, IfSome};
ghost use Rattle.co_dict.specs.Rows.{takes};
ghost use Rattle.co_dict.specs.Refusals.{refused_if, refusal_in};
ghost use Rattle.co_frame_aborts.specs.AbortCodes.{read_only};
ghost use Rattle.co_dict.specs.WriteRefusals.{
  is_read_only,
  is_constant,
  is_sdo_parameter,
  total_refusal,
  value_refusal,
  initiate_refusal,
  writing_refusal,
  app_refusal,
};

use crate::fitting::check_size;
use crate::objects::entry_row;
use crate::own_rules::check_own_rule;
use crate::row::Row;
use crate::store::ObjectStore;
use co_frame_aborts::AbortCode;
use co_profile::{Access, IndexRange};
use co_value::Key;

fn is_read_only(access: Access) -> bool
    ensures { result ≡ is_read_only access }
{
    matches!(access, Access::Ro | Access::Constant)
}

fn is_constant(access: Access) -> bool
    ensures { result ≡ is_constant access }
{
    matches!(access, Access::Constant)
}

fn is_sdo_parameter(index: u16) -> bool
    ensures { result ≡ is_sdo_parameter index }
{
    IndexRange::SDO_SERVER.contains(index)
}

// whether an entry may be written by SDO: its access allows it, and it is no SDO server parameter
fn check_writable(row: &Row, index: u16) -> Result<(), AbortCode>
    ensures { refusal_in result
        ≡ refused_if (is_read_only row.now.access || is_sdo_parameter index) read_only }
{
    if is_read_only(row.access) || is_sdo_parameter(index) {
        return Err(AbortCode::READ_ONLY);
    }
    Ok(())
}

// whether bytes may be the value of an entry: they fit, their number is within the limits, and they
// keep the own rule
fn check_value<S: ObjectStore>(
    store: &S,
    key: Key,
    row: &Row,
    bytes: &[u8],
) -> Result<(), AbortCode>
    requires { (S.description store.now).rows key ≡ Some row.now }
    ensures refusal { refusal_in result
        ≡ value_refusal (S.description store.now) (S.contents store.now) key row.now bytes.now }
    ensures takes { OnOk result (takes (S.description store.now).rows key (length bytes.now)
        ≡ true) }
{
    check_size(store, key, row, bytes.len())?;
    row.check_limits(bytes)?;
    check_own_rule(store, key, bytes)
}

/// Whether a write by SDO may begin, with the size in bytes where it is indicated
/// (CiA 301, 7.2.4.3.17). The first of these refuses it: there is no object of the index
/// (06020000h), there is no such sub-index (06090011h), the access is ro or const or the index
/// 1200h to 127Fh (06010002h), the size is above the capacity (06070012h) or below the width of the
/// type (06070013h). After Ok the entry is there, and an indicated size fits it.
pub fn may_begin<S: ObjectStore>(store: &S, key: Key, size: Option<u32>) -> Result<(), AbortCode>
    ensures refusal { refusal_in result ≡ initiate_refusal (S.description store.now).rows key size }
    ensures there { OnOk result (is_some ((S.description store.now).rows key) ≡ true) }
    ensures takes { OnOk result (IfSome size (λ size. takes (S.description store.now).rows key size
        ≡ true)) }
{
    let row = entry_row(store, key)?;
    check_writable(&row, key.index)?;
    match size {
        Some(size) => check_size(store, key, &row, size as usize),
        None => Ok(()),
    }
}

// whether the bytes are as many as indicated
fn check_total(indicated: usize, total: usize) -> Result<(), AbortCode>
    ensures { refusal_in result ≡ total_refusal indicated total }
{
    if total > indicated {
        return Err(AbortCode::TOO_LONG);
    }
    if total < indicated {
        return Err(AbortCode::TOO_SHORT);
    }
    Ok(())
}

/// Whether a write by SDO may complete with these bytes, after a begin with or without an indicated
/// size (CiA 301, 7.2.4.3.17). The first of these refuses it: what refuses its begin, more bytes
/// than indicated (06070012h) or fewer (06070013h), more than the capacity (06070012h) or less than
/// the width (06070013h), a number above the high limit (06090031h) or below the low limit
/// (06090032h), and the rule that the entry has of its own. After Ok the bytes fit the entry.
pub fn may_complete<S: ObjectStore>(
    store: &S,
    key: Key,
    indicated: Option<u32>,
    bytes: &[u8],
) -> Result<(), AbortCode>
    ensures refusal { refusal_in result
        ≡ writing_refusal (S.description store.now) (S.contents store.now) key indicated bytes.now }
    ensures takes { OnOk result (takes (S.description store.now).rows key (length bytes.now)
        ≡ true) }
{
    let row = entry_row(store, key)?;
    check_writable(&row, key.index)?;
    if let Some(size) = indicated {
        check_size(store, key, &row, size as usize)?;
        check_total(size as usize, bytes.len())?;
    }
    check_value(store, key, &row, bytes)
}

/// Whether a write by SDO without an indicated size may set these bytes; refused as by
/// `may_complete`. After Ok the bytes fit the entry.
pub fn may_store<S: ObjectStore>(store: &S, key: Key, bytes: &[u8]) -> Result<(), AbortCode>
    ensures refusal { refusal_in result
        ≡ writing_refusal (S.description store.now) (S.contents store.now) key None bytes.now }
    ensures takes { OnOk result (takes (S.description store.now).rows key (length bytes.now)
        ≡ true) }
{
    may_complete(store, key, None, bytes)
}

/// Whether the application may set these bytes. The first of these refuses it: there is no object
/// of the index (06020000h), there is no such sub-index (06090011h), the access is const or the
/// index 1200h to 127Fh (06010002h), the length, the limits and the own rule as for a write by SDO.
/// After Ok the bytes fit the entry.
pub fn app_store<S: ObjectStore>(store: &S, key: Key, bytes: &[u8]) -> Result<(), AbortCode>
    ensures refusal { refusal_in result
        ≡ app_refusal (S.description store.now) (S.contents store.now) key bytes.now }
    ensures takes { OnOk result (takes (S.description store.now).rows key (length bytes.now)
        ≡ true) }
{
    let row = entry_row(store, key)?;
    if is_constant(row.access) || is_sdo_parameter(key.index) {
        return Err(AbortCode::READ_ONLY);
    }
    check_value(store, key, &row, bytes)
}
