//! Why a transfer was aborted.

ghost use Rattle.std.specs.Prelude.{◌≡◌};
ghost use Rattle.co_frame_aborts.specs.AbortCodes as codes;

/// An abort code of the SDO protocol (CiA 301, 7.2.4.3.17). Any number may come in a frame.
#[derive(Clone, Copy, Debug, PartialEq, Eq)]
pub struct AbortCode(pub u32);

impl AbortCode {
    /// The toggle bit wasn't alternated.
    pub const TOGGLE_NOT_ALTERNATED: AbortCode = AbortCode(0x0503_0000);
    /// The protocol timed out.
    pub const TIMED_OUT: AbortCode = AbortCode(0x0504_0000);
    /// The command specifier isn't valid or known.
    pub const UNKNOWN_COMMAND: AbortCode = AbortCode(0x0504_0001);
    /// The block size isn't valid.
    pub const INVALID_BLOCK_SIZE: AbortCode = AbortCode(0x0504_0002);
    /// The sequence number isn't valid.
    pub const INVALID_SEQUENCE_NUMBER: AbortCode = AbortCode(0x0504_0003);
    /// There is no room for the value.
    pub const OUT_OF_MEMORY: AbortCode = AbortCode(0x0504_0005);
    /// The object can't be read: it is write only.
    pub const WRITE_ONLY: AbortCode = AbortCode(0x0601_0001);
    /// The object can't be written: it is read only.
    pub const READ_ONLY: AbortCode = AbortCode(0x0601_0002);
    /// There is no object at this index.
    pub const OBJECT_MISSING: AbortCode = AbortCode(0x0602_0000);
    /// The object can't be mapped to the PDO.
    pub const NOT_MAPPABLE: AbortCode = AbortCode(0x0604_0041);
    /// The mapped objects are longer than a PDO.
    pub const MAPPING_TOO_LONG: AbortCode = AbortCode(0x0604_0042);
    /// The parameter doesn't go with another one.
    pub const PARAMETER_INCOMPATIBLE: AbortCode = AbortCode(0x0604_0043);
    /// The value is longer than the entry.
    pub const TOO_LONG: AbortCode = AbortCode(0x0607_0012);
    /// The value is shorter than the entry.
    pub const TOO_SHORT: AbortCode = AbortCode(0x0607_0013);
    /// The object has no such sub-index.
    pub const SUB_INDEX_MISSING: AbortCode = AbortCode(0x0609_0011);
    /// The value is invalid for the parameter.
    pub const INVALID_VALUE: AbortCode = AbortCode(0x0609_0030);
    /// The value is above the high limit.
    pub const ABOVE_HIGH_LIMIT: AbortCode = AbortCode(0x0609_0031);
    /// The value is below the low limit.
    pub const BELOW_LOW_LIMIT: AbortCode = AbortCode(0x0609_0032);
    /// The value can't be transferred to the application, or stored by it.
    pub const NOT_STORABLE: AbortCode = AbortCode(0x0800_0020);
    /// The value can't be stored in the device's present state.
    pub const NOT_IN_THIS_STATE: AbortCode = AbortCode(0x0800_0022);
    /// There is no value to be read.
    pub const NO_VALUE: AbortCode = AbortCode(0x0800_0024);

    /// Each constant is the number that the standard gives it. This is a law: a call of it changes
    /// nothing.
    pub fn numbers()
        ensures toggle_not_alternated { AbortCode.TOGGLE_NOT_ALTERNATED.0
            ≡ codes.toggle_not_alternated }
        ensures timed_out { AbortCode.TIMED_OUT.0 ≡ codes.timed_out }
        ensures unknown_command { AbortCode.UNKNOWN_COMMAND.0 ≡ codes.unknown_command }
        ensures invalid_block_size { AbortCode.INVALID_BLOCK_SIZE.0 ≡ codes.invalid_block_size }
        ensures invalid_sequence_number { AbortCode.INVALID_SEQUENCE_NUMBER.0
            ≡ codes.invalid_sequence_number }
        ensures out_of_memory { AbortCode.OUT_OF_MEMORY.0 ≡ codes.out_of_memory }
        ensures write_only { AbortCode.WRITE_ONLY.0 ≡ codes.write_only }
        ensures read_only { AbortCode.READ_ONLY.0 ≡ codes.read_only }
        ensures object_missing { AbortCode.OBJECT_MISSING.0 ≡ codes.object_missing }
        ensures not_mappable { AbortCode.NOT_MAPPABLE.0 ≡ codes.not_mappable }
        ensures mapping_too_long { AbortCode.MAPPING_TOO_LONG.0 ≡ codes.mapping_too_long }
        ensures parameter_incompatible { AbortCode.PARAMETER_INCOMPATIBLE.0
            ≡ codes.parameter_incompatible }
        ensures too_long { AbortCode.TOO_LONG.0 ≡ codes.too_long }
        ensures too_short { AbortCode.TOO_SHORT.0 ≡ codes.too_short }
        ensures sub_index_missing { AbortCode.SUB_INDEX_MISSING.0 ≡ codes.sub_index_missing }
        ensures invalid_value { AbortCode.INVALID_VALUE.0 ≡ codes.invalid_value }
        ensures above_high_limit { AbortCode.ABOVE_HIGH_LIMIT.0 ≡ codes.above_high_limit }
        ensures below_low_limit { AbortCode.BELOW_LOW_LIMIT.0 ≡ codes.below_low_limit }
        ensures not_storable { AbortCode.NOT_STORABLE.0 ≡ codes.not_storable }
        ensures not_in_this_state { AbortCode.NOT_IN_THIS_STATE.0 ≡ codes.not_in_this_state }
        ensures no_value { AbortCode.NO_VALUE.0 ≡ codes.no_value }
    {}
}
