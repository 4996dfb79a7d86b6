//! The lines and sections of a data sheet's text (CiA 306), what becomes of them where the text is
//! rewritten, what is changed only on request (numbers with a leading zero, and what has to be
//! forced), and the original types of a text that was adapted.
#![tactic(auto)]

// As `?`, without a conversion of the error: a `match` is one step of a proof where `?` is three.
macro_rules! attempt {
    ($result:expr) => {
        match $result {
            Ok(value) => value,
            Err(fault) => return Err(fault),
        }
    };
}

// The same of what couldn't be put into a list: memory ran out.
macro_rules! attempt_in_memory {
    ($result:expr) => {
        match $result {
            Ok(value) => value,
            Err(_) => return Err(AllocError),
        }
    };
}

mod change;
mod digits;
mod extended;
mod fault;
mod forced;
mod group;
mod limits;
mod line;
mod names;
mod originals;
mod pieces;
mod request;
mod requested;
mod words;
mod zeros;

pub use change::{Change, ChangeKind, Mended, Piece};
pub use digits::{hexadecimal, push_number};
pub use extended::{has_extended_low, is_extended_limit, sign_extended};
pub use fault::AdaptFault;
pub use group::{Group, before_sections, groups_in, without_blanks};
pub use limits::{data_type_of, has_unsigned_limits, is_limit, is_preset};
pub use line::{Line, lines_in};
pub use names::{Names, row_at, shown_name};
pub use originals::Originals;
pub use pieces::{assigned, joined, piece_of, push_kept, push_pieces, with_value};
pub use request::{LeadingZeros, Request};
pub use requested::{Requested, on_request};
pub use words::change_name;
