//! The eight bytes of an SDO frame as they are written: reserved bits and bytes are 0.

ghost use Rattle.std.specs.Prelude.{◌≡◌, ℕ, ◌<◌, ◌≤◌};
ghost use Rattle.co_value.specs.declared.key.Key.{Key};
ghost use Rattle.co_value.specs.Numbers.{low_bytes};
ghost use Rattle.co_frame.specs.SdoFields.{command_with, weight, padded, key_in, number_in, specifier as specifier_of};
ghost use Rattle.co_frame.specs.SdoParts.{
  SpellsExpedited,
  SpellsInitiate,
  SpellsSegment,
  SpellsAbort,
  SpellsBlockInitiate,
  SpellsBlockEnd,
  IsExpeditedData,
  keyed_bytes,
  bare_bytes,
  expedited_bytes,
  initiate_bytes,
  segment_bytes,
  abort_bytes,
  block_initiate_bytes,
  block_end_bytes,
  acknowledge_bytes,
};

use crate::sdo_request::ExpeditedData;
use crate::{ccs, subcommands};
use arrayvec::ArrayVec;
use byteorder::{ByteOrder, LittleEndian};
use co_frame_aborts::AbortCode;
use co_value::Key;

// the command byte of a specifier, with bits 4 to 0
pub(crate) fn command(specifier: u8, bits: u8) -> u8
    requires specifier { specifier < 8 }
    requires bits { bits < 32 }
    ensures { result ≡ command_with specifier bits }
{
    32 * specifier + bits
}

// the weight of a bit of the command byte
pub(crate) fn weight(bit: u8, set: bool) -> u8
    requires { bit < 8 }
    ensures { result ≡ weight bit set }
{
    if set { 1 << bit } else { 0 }
}

pub(crate) fn keyed(command: u8, key: Key, four: [u8; 4]) -> [u8; 8]
    ensures bytes { result ≡ keyed_bytes command key four }
    ensures key { key ≡ key_in result }
{
    let mut bytes = [0, 0, 0, 0, four[0], four[1], four[2], four[3]];
    bytes[0] = command;
    LittleEndian::write_u16(&mut bytes[1..3], key.index);
    bytes[3] = key.sub;
    bytes
}

pub(crate) fn bare(command: u8) -> [u8; 8]
    ensures { result ≡ bare_bytes command }
{
    [command, 0, 0, 0, 0, 0, 0, 0]
}

fn four_of(number: u32) -> [u8; 4]
    ensures bytes { result ≡ low_bytes 4 number }
    ensures number { (command : ℕ) (key : Key)
        → number ≡ number_in (keyed_bytes command key result) }
{
    let mut four = [0; 4];
    LittleEndian::write_u32(&mut four, number);
    four
}

fn padded_four(counted: &ArrayVec<u8, 4>) -> [u8; 4]
    ensures { result ≡ padded 4 counted.now.items }
{
    let mut four = [0; 4];
    four[..counted.len()].copy_from_slice(counted);
    four
}

pub(crate) fn expedited(specifier: u8, key: Key, data: &ExpeditedData) -> [u8; 8]
    requires small { specifier < 8 }
    requires spellable { IsExpeditedData «data».now }
    ensures bytes { result ≡ expedited_bytes specifier key «data».now }
    ensures specifier { specifier ≡ specifier_of result }
    ensures spelled { SpellsExpedited key «data».now result }
{
    match data {
        ExpeditedData::Indicated(counted) => {
            let unused = 4 - counted.len() as u8;
            keyed(
                command(specifier, 4 * unused + 3),
                key,
                padded_four(counted),
            )
        }
        ExpeditedData::NotIndicated(four) => keyed(command(specifier, 2), key, *four),
    }
}

pub(crate) fn initiate(specifier: u8, key: Key, size: Option<u32>) -> [u8; 8]
    requires { specifier < 8 }
    ensures bytes { result ≡ initiate_bytes specifier key size }
    ensures specifier { specifier ≡ specifier_of result }
    ensures spelled { SpellsInitiate key size result }
{
    match size {
        Some(size) => keyed(command(specifier, 1), key, four_of(size)),
        None => keyed(command(specifier, 0), key, [0; 4]),
    }
}

pub(crate) fn segment(toggle: bool, part: &ArrayVec<u8, 7>, last: bool) -> [u8; 8]
    ensures bytes { result ≡ segment_bytes toggle part.now last }
    ensures specifier { specifier_of result ≡ 0 }
    ensures spelled { SpellsSegment toggle part.now last result }
{
    let mut bytes = [0; 8];
    bytes[0] = weight(4, toggle) + 2 * (7 - part.len() as u8) + weight(0, last);
    bytes[1..1 + part.len()].copy_from_slice(part);
    bytes
}

pub(crate) fn abort(key: Key, code: AbortCode) -> [u8; 8]
    ensures bytes { result ≡ abort_bytes key code }
    ensures spelled { SpellsAbort key code result }
{
    keyed(command(ccs::ABORT, 0), key, four_of(code.0))
}

pub(crate) fn block_initiate(specifier: u8, key: Key, size: Option<u32>) -> [u8; 8]
    requires { specifier < 8 }
    ensures bytes { result ≡ block_initiate_bytes specifier key size }
    ensures specifier { specifier ≡ specifier_of result }
    ensures spelled { SpellsBlockInitiate key size result }
{
    match size {
        Some(size) => keyed(command(specifier, 2), key, four_of(size)),
        None => keyed(command(specifier, 0), key, [0; 4]),
    }
}

pub(crate) fn block_end(specifier: u8, unused: u8) -> [u8; 8]
    requires small { specifier < 8 }
    requires spellable { unused ≤ 7 }
    ensures bytes { result ≡ block_end_bytes specifier unused }
    ensures specifier { specifier ≡ specifier_of result }
    ensures spelled { SpellsBlockEnd unused result }
{
    bare(command(specifier, 4 * unused + 1))
}

pub(crate) fn acknowledge(specifier: u8, sequence: u8, block_size: u8) -> [u8; 8]
    requires { specifier < 8 }
    ensures { result ≡ acknowledge_bytes specifier sequence block_size }
{
    let mut bytes = bare(command(specifier, subcommands::ACKNOWLEDGE));
    bytes[1] = sequence;
    bytes[2] = block_size;
    bytes
}
