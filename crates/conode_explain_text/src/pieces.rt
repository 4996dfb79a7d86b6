//! Parts of the lines of most frames, each in one piece of a fixed size: no byte of it has to ask for
//! room.

ghost use Rattle.std.specs.Prelude.{◌≡◌, ◌<◌, ◌≤◌, ◌+◌, ◌-◌, ◌*◌, ◌/◌, ◌%◌, ◌^◌, ◌∷◌, ◌++◌, codes, length};
ghost use Rattle.std.specs.List.{flat_map};
ghost use Rattle.arrayvec.specs.ArrayVec.{array_vec_len};
ghost use Rattle.co_text.specs.Printed.{byte_text, digits_text, printed_digit};
ghost use Rattle.conode_explain_text.specs.Columns.{blank_byte, bytes_text, length_text};
ghost use Rattle.conode_explain_text.specs.Stamps.{column, micros_text, padded, time_text};

use arrayvec::ArrayVec;

/// Room for a stamp, a gap, or an identifier, a length and eight bytes.
pub(crate) type Piece = ArrayVec<u8, 34>;

/// The hexadecimal digits: a look-up needs no branch between digits and letters.
static DIGITS: [u8; 16] = *b"0123456789ABCDEF";

/// Each byte in two hexadecimal digits: one look-up for both.
static PAIRS: [u8; 512] = *b"000102030405060708090A0B0C0D0E0F101112131415161718191A1B1C1D1E1F\
    202122232425262728292A2B2C2D2E2F303132333435363738393A3B3C3D3E3F\
    404142434445464748494A4B4C4D4E4F505152535455565758595A5B5C5D5E5F\
    606162636465666768696A6B6C6D6E6F707172737475767778797A7B7C7D7E7F\
    808182838485868788898A8B8C8D8E8F909192939495969798999A9B9C9D9E9F\
    A0A1A2A3A4A5A6A7A8A9AAABACADAEAFB0B1B2B3B4B5B6B7B8B9BABBBCBDBEBF\
    C0C1C2C3C4C5C6C7C8C9CACBCCCDCECFD0D1D2D3D4D5D6D7D8D9DADBDCDDDEDF\
    E0E1E2E3E4E5E6E7E8E9EAEBECEDEEEFF0F1F2F3F4F5F6F7F8F9FAFBFCFDFEFF";

/// The width of eight bytes, each after a blank.
static BLANKS: [u8; 24] = *b"                        ";

// appends bytes for which there is room
#[inline(always)]
fn put(piece: &mut Piece, bytes: &[u8])
    requires { array_vec_len piece.old + length bytes.now ≤ 34 }
    ensures items { piece.new.items ≡ piece.old.items ++ bytes.now }
    ensures len { array_vec_len piece.new ≡ array_vec_len piece.old + length bytes.now }
{
    piece.try_extend_from_slice(bytes).unwrap();
}

// the last decimal digit
#[inline(always)]
fn last_digit(number: u32) -> u8
    ensures { result ≡ printed_digit (number % 10) }
{
    b'0' + (number % 10) as u8
}

#[inline(always)]
#[tactic(auto, unfolding(co_text::specs::Printed::digits_text))]
fn put_micros(piece: &mut Piece, micros: u32)
    requires { array_vec_len piece.old + 6 ≤ 34 }
    ensures items { piece.new.items ≡ piece.old.items ++ micros_text micros }
    ensures len { array_vec_len piece.new ≡ array_vec_len piece.old + 6 }
{
    let digits = [
        last_digit(micros / 10 / 10 / 10 / 10 / 10),
        last_digit(micros / 10 / 10 / 10 / 10),
        last_digit(micros / 10 / 10 / 10),
        last_digit(micros / 10 / 10),
        last_digit(micros / 10),
        last_digit(micros),
    ];
    put(piece, &digits);
}

// a digit of a number, by its unit; blank where the number is smaller
#[inline(always)]
fn column(number: u32, unit: u32) -> u8
    requires { 0 < unit }
    ensures { result ≡ column unit number }
{
    if number < unit {
        b' '
    } else {
        last_digit(number / unit)
    }
}

// a number in five columns
#[inline(always)]
fn put_five_columns(piece: &mut Piece, number: u32)
    requires room { array_vec_len piece.old + 5 ≤ 34 }
    requires short { number < 10 ^ 5 }
    ensures items { piece.new.items ≡ piece.old.items ++ padded 5 number }
    ensures len { array_vec_len piece.new ≡ array_vec_len piece.old + 5 }
{
    let columns = [
        column(number, 10_000),
        column(number, 1000),
        column(number, 100),
        column(number, 10),
        last_digit(number),
    ];
    put(piece, &columns);
}

/// A blank, and a time of less than 100,000 seconds in the width of a stamp. Its length is known
/// where it is compiled, so it is written where it is appended.
#[inline(always)]
#[tactic(auto, unfolding(crate::specs::Stamps::time_text))]
pub(crate) fn stamp_piece(micros: u64) -> Piece
    requires { micros < 10 ^ 11 }
    ensures { result.items ≡ 32 ∷ time_text 5 micros }
{
    let mut piece = Piece::new();
    put(&mut piece, b" ");
    put_five_columns(&mut piece, (micros / 1_000_000) as u32);
    put(&mut piece, b".");
    put_micros(&mut piece, (micros % 1_000_000) as u32);
    piece
}

/// Two blanks, a plus sign, and a time of less than 10 seconds.
#[tactic(auto, unfolding(crate::specs::Stamps::time_text), using(std::proofs::lemmas::Fmt::decimal_digit))]
pub(crate) fn gap_piece(micros: u32) -> Piece
    requires { micros < 10 ^ 7 }
    ensures { result.items ≡ codes "  +" ++ time_text 1 micros }
{
    let mut piece = Piece::new();
    let seconds = [b' ', b' ', b'+', b'0' + (micros / 1_000_000) as u8, b'.'];
    put(&mut piece, &seconds);
    put_micros(&mut piece, micros % 1_000_000);
    piece
}

// the last hexadecimal digit
#[inline(always)]
fn last_hex_digit(number: u16) -> u8
    ensures { result ≡ printed_digit (number % 16) }
{
    DIGITS[(number % 16) as usize]
}

#[inline(always)]
#[tactic(auto, unfolding(co_text::specs::Printed::digits_text))]
fn put_id(piece: &mut Piece, id: u16)
    requires { array_vec_len piece.old + 3 ≤ 34 }
    ensures items { piece.new.items ≡ piece.old.items ++ digits_text 16 3 id }
    ensures len { array_vec_len piece.new ≡ array_vec_len piece.old + 3 }
{
    let digits = [
        last_hex_digit(id / 16 / 16),
        last_hex_digit(id / 16),
        last_hex_digit(id),
    ];
    put(piece, &digits);
}

#[inline(always)]
#[tactic(auto, using(std::proofs::lemmas::Fmt::decimal_digit))]
fn put_length(piece: &mut Piece, count: u8)
    requires room { array_vec_len piece.old + 3 ≤ 34 }
    requires short { count < 10 }
    ensures items { piece.new.items ≡ piece.old.items ++ length_text count }
    ensures len { array_vec_len piece.new ≡ array_vec_len piece.old + 3 }
{
    let digits = [b'[', b'0' + count, b']'];
    put(piece, &digits);
}

// a byte in two hexadecimal digits
#[inline(always)]
fn pair_of(byte: u8) -> &'static [u8]
    ensures digits { result.now ≡ byte_text byte }
    ensures two { length result.now ≡ 2 }
{
    let place = byte as usize * 2;
    &PAIRS[place..place + 2]
}

#[inline(always)]
fn put_byte(piece: &mut Piece, byte: u8)
    requires { array_vec_len piece.old + 3 ≤ 34 }
    ensures items { piece.new.items ≡ piece.old.items ++ blank_byte byte }
    ensures len { array_vec_len piece.new ≡ array_vec_len piece.old + 3 }
{
    put(piece, b" ");
    put(piece, pair_of(byte));
}

// eight bytes: without a loop
#[inline(always)]
fn put_eight(piece: &mut Piece, bytes: &[u8])
    requires room { array_vec_len piece.old + 24 ≤ 34 }
    requires eight { length bytes.now ≡ 8 }
    ensures items { piece.new.items ≡ piece.old.items ++ flat_map blank_byte bytes.now }
    ensures len { array_vec_len piece.new ≡ array_vec_len piece.old + 24 }
{
    put_byte(piece, bytes[0]);
    put_byte(piece, bytes[1]);
    put_byte(piece, bytes[2]);
    put_byte(piece, bytes[3]);
    put_byte(piece, bytes[4]);
    put_byte(piece, bytes[5]);
    put_byte(piece, bytes[6]);
    put_byte(piece, bytes[7]);
}

fn put_each(piece: &mut Piece, bytes: &[u8])
    requires { array_vec_len piece.old + 3 * length bytes.now ≤ 34 }
    ensures items { piece.new.items ≡ piece.old.items ++ flat_map blank_byte bytes.now }
    ensures len { array_vec_len piece.new ≡ array_vec_len piece.old + 3 * length bytes.now }
{
    for byte in bytes {
        put_byte(piece, *byte);
    }
}

#[inline(always)]
#[tactic(auto, unfolding(crate::specs::Columns::bytes_text))]
fn put_data(piece: &mut Piece, bytes: &[u8])
    requires room { array_vec_len piece.old + 27 ≤ 34 }
    requires few { length bytes.now ≤ 8 }
    ensures { piece.new.items ≡ piece.old.items ++ bytes_text (length bytes.now) bytes.now }
{
    put_length(piece, bytes.len() as u8);
    put_each(piece, bytes);
    put(piece, &BLANKS[3 * bytes.len()..]);
}

#[inline(always)]
#[tactic(auto, unfolding(crate::specs::Columns::bytes_text))]
fn put_eight_data(piece: &mut Piece, bytes: &[u8])
    requires room { array_vec_len piece.old + 27 ≤ 34 }
    requires eight { length bytes.now ≡ 8 }
    ensures { piece.new.items ≡ piece.old.items ++ bytes_text (length bytes.now) bytes.now }
{
    put_length(piece, bytes.len() as u8);
    put_eight(piece, bytes);
}

/// An identifier of 11 bits, a length and up to eight bytes, each part after two blanks.
pub(crate) fn frame_piece(id: u16, bytes: &[u8]) -> Piece
    requires { length bytes.now ≤ 8 }
    ensures { result.items ≡ codes "  " ++ digits_text 16 3 id
        ++ codes "  " ++ bytes_text (length bytes.now) bytes.now }
{
    let mut piece = Piece::new();
    put(&mut piece, b"  ");
    put_id(&mut piece, id);
    put(&mut piece, b"  ");
    put_data(&mut piece, bytes);
    piece
}

/// The same of eight bytes, as most frames have: its length is known where it is compiled, so it is
/// written where it is appended.
#[inline(always)]
pub(crate) fn eight_piece(id: u16, bytes: &[u8]) -> Piece
    requires { length bytes.now ≡ 8 }
    ensures { result.items ≡ codes "  " ++ digits_text 16 3 id
        ++ codes "  " ++ bytes_text (length bytes.now) bytes.now }
{
    let mut piece = Piece::new();
    put(&mut piece, b"  ");
    put_id(&mut piece, id);
    put(&mut piece, b"  ");
    put_eight_data(&mut piece, bytes);
    piece
}
