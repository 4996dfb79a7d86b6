//! What is asked for beyond the rules.

ghost use Rattle.std.specs.Prelude.{◌≡◌, option_map};
ghost use Rattle.co_sheet_changes.specs.Requested.{request_view};
ghost use Rattle.conode_adapt.specs.Written.{force_request, orders_view, zeros_request};

use co_sheet_changes::{LeadingZeros, Request};

/// What is asked for beyond the rules.
#[derive(Clone, Copy)]
pub struct Orders<'m> {
    /// How a number with a leading zero is read; `None`: it stays as it is.
    pub leading_zeros: Option<LeadingZeros>,
    /// With `force`, the indices of the mappings at fault; `None`: nothing is forced.
    pub force: Option<&'m [u16]>,
}

impl<'m> Orders<'m> {
    pub(crate) fn zeros_request(self) -> Option<Request<'m>>
        ensures { option_map request_view result ≡ zeros_request (orders_view self.entry) }
    {
        match self.leading_zeros {
            Some(zeros) => Some(Request::LeadingZeros(zeros)),
            None => None,
        }
    }

    pub(crate) fn force_request(self) -> Option<Request<'m>>
        ensures { option_map request_view result ≡ force_request (orders_view self.entry) }
    {
        match self.force {
            Some(mappings) => Some(Request::Force(mappings)),
            None => None,
        }
    }
}
