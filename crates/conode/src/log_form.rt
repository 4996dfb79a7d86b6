//! The form of a log, for all that read recordings of any recorder.

use conode_convert::Form;
use conode_words::LogForm;

/// The form of a log.
pub(crate) fn recorded_form(form: LogForm) -> Form {
    match form {
        LogForm::Auto => Form::Unknown,
        LogForm::Candump => Form::Candump,
        LogForm::Screen => Form::Screen,
        LogForm::ScreenDelta => Form::Deltas,
        LogForm::Trc => Form::trc(),
        LogForm::Asc => Form::asc(),
    }
}
