//! What a line of a log says, by the form of the log.

ghost use Rattle.std.specs.Prelude.{◌≡◌, false};
ghost use Rattle.conode_record.specs.Lines.{is_skipped, line_in};
ghost use Rattle.conode_logs.specs.Logs.{
  asc_of_old,
  says_frame,
  shows_frame,
  begins_asc,
  form_of,
  record_line_of,
  has_number_sign,
  is_like_record,
  unknown_line,
  without_mark,
  says_by,
  form_at,
  says,
};
ghost use Rattle.conode_logs.specs.Screen.{screen_line};
ghost use Rattle.conode_logs.specs.Trc.{version_1_1};
ghost use Rattle.conode_logs.specs.declared.log.Form.TheVariants.{Trc, Asc};

use crate::asc::{AscForm, asc_line};
use crate::screen::screen_line;
use crate::trc::{Columns, is_version, trc_line};
use conode_record::{BadLogLine, Base, LogLine, RecordLine, is_over, is_word, word_at};

/// The form of a log.
#[derive(Clone, Copy)]
pub enum Form {
    /// No line has shown it yet.
    Unknown,
    /// Lines as `candump -L` writes them.
    Candump,
    /// What candump shows on a screen: without stamps, or with stamps that don't depend on the line
    /// before (`-t a`, `-t z`, `-t A`).
    Screen,
    /// The same, with stamps counted from the line before (`-t d`).
    Deltas,
    /// A `.trc`, and its columns.
    Trc(Columns),
    /// A `.asc`, and how its numbers and stamps are written.
    Asc(AscForm),
}

/// What is known of a log so far: its form, and its clock in microseconds, for stamps counted from
/// the line before.
#[derive(Clone, Copy)]
pub struct Log {
    /// Its form.
    pub form: Form,
    /// The time of the last line that had a stamp; 0 at first.
    pub clock: u64,
}

impl AscForm {
    /// A `.asc` until its header says otherwise: hexadecimal digits, absolute stamps.
    pub(crate) fn of_old() -> AscForm
        ensures { result ≡ asc_of_old }
    {
        AscForm {
            base: Base::Hexadecimal,
            relative: false,
        }
    }
}

// the line without a byte order mark at the front
fn without_mark(line: &[u8]) -> &[u8]
    ensures { result.now ≡ without_mark line.now }
{
    match line {
        [0xEF, 0xBB, 0xBF, text @ ..] => text,
        _ => line,
    }
}

// a frame as `candump -L` writes it
fn says_frame(line: &[u8]) -> bool
    ensures { result ≡ says_frame (line_in line.now) }
{
    matches!(&RecordLine::read(line), Ok(RecordLine::Frame(_)))
}

// a frame as candump shows it
fn shows_frame(line: &[u8]) -> bool
    ensures { result ≡ shows_frame (screen_line false 0 line.now).1 }
{
    matches!(&screen_line(false, 0, line).1, Ok(LogLine::Frame(_)))
}

// a header of a `.asc`
fn begins_asc(line: &[u8]) -> bool
    ensures { result ≡ begins_asc line.now }
{
    match word_at(line) {
        Some((word, _)) => is_word(word, b"date") || is_word(word, b"base"),
        None => false,
    }
}

impl Form {
    /// A `.trc`, of version 1.1 until a line says which version it has.
    pub fn trc() -> Form
        ensures { result ≡ Trc version_1_1 }
    {
        Form::Trc(Columns::version_1_1())
    }

    /// A `.asc` with hexadecimal digits and absolute stamps, until its header says otherwise.
    pub fn asc() -> Form
        ensures { result ≡ Asc asc_of_old }
    {
        Form::Asc(AscForm::of_old())
    }

    // the form that this line shows
    #[tactic(auto, unfolding(crate::specs::Logs::form_of))]
    fn of_line(line: &[u8]) -> Form
        ensures { result ≡ form_of line.now }
    {
        let text = without_mark(line);
        if is_version(text) {
            return match Columns::of_version(text) {
                Some(columns) => Form::Trc(columns),
                None => Form::Unknown,
            };
        }
        if begins_asc(text) {
            Form::Asc(AscForm::of_old())
        } else if says_frame(line) {
            Form::Candump
        } else if shows_frame(text) {
            Form::Screen
        } else {
            Form::Unknown
        }
    }

    // the form, or the one that this line shows if it isn't known yet
    fn at_line(self, line: &[u8]) -> Form
        ensures { result ≡ form_at self line.now }
    {
        match self {
            Form::Unknown => Form::of_line(line),
            known => known,
        }
    }
}

// a line as `candump -L` writes it
fn record_line(line: &[u8]) -> Result<LogLine<'_>, BadLogLine>
    ensures { result ≡ record_line_of (line_in line.now) }
{
    match RecordLine::read(line) {
        Ok(_) => Ok(LogLine::AsItIs),
        Err(bad) => Err(BadLogLine::of_record(bad)),
    }
}

fn is_skipped(line: &[u8]) -> bool
    ensures { result ≡ is_skipped line.now }
{
    line.is_empty() || line[0] == b';' || line[0] == b'!'
}

fn has_number_sign(text: &[u8]) -> bool
    ensures { result ≡ has_number_sign text.now }
{
    text.iter().any(|byte| *byte == b'#')
}

// a parenthesis at the front, as of a stamp, and a number sign: only `candump -L` writes both
fn is_like_record(text: &[u8]) -> bool
    ensures { result ≡ is_like_record text.now }
{
    match text {
        [first, rest @ ..] => *first == b'(' && has_number_sign(rest),
        [] => false,
    }
}

// a line that leaves the form unknown
#[tactic(auto, unfolding(crate::specs::Logs::unknown_line))]
fn unknown_line(line: &[u8]) -> Result<LogLine<'_>, BadLogLine>
    ensures { result ≡ unknown_line line.now }
{
    let text = without_mark(line);
    if is_version(text) {
        Err(BadLogLine::Version)
    } else if is_skipped(line) {
        Ok(LogLine::AsItIs)
    } else if is_over(text) || is_skipped(text) {
        Ok(LogLine::Skipped)
    } else if is_like_record(text) {
        record_line(line)
    } else {
        Err(BadLogLine::Unknown)
    }
}

// what a line says in a log of this form, and the log after it
#[tactic(auto, unfolding(crate::specs::Logs::says_by))]
fn says_by(form: Form, clock: u64, line: &[u8]) -> (Log, Result<LogLine<'_>, BadLogLine>)
    ensures { result ≡ says_by form clock line.now }
{
    match form {
        Form::Unknown => (Log { form, clock }, unknown_line(line)),
        Form::Candump => (Log { form, clock }, record_line(line)),
        Form::Screen => {
            let (clock, says) = screen_line(false, clock, without_mark(line));
            (Log { form, clock }, says)
        }
        Form::Deltas => {
            let (clock, says) = screen_line(true, clock, without_mark(line));
            (Log { form, clock }, says)
        }
        Form::Trc(columns) => {
            let (columns, says) = trc_line(columns, without_mark(line));
            let form = Form::Trc(columns);
            (Log { form, clock }, says)
        }
        Form::Asc(asc) => {
            let (asc, (clock, says)) = asc_line(asc, clock, without_mark(line));
            let form = Form::Asc(asc);
            (Log { form, clock }, says)
        }
    }
}

impl Log {
    /// Reads a line without its line feed; `Err` says what is wrong with it. A line may show the
    /// form of the log, if it isn't known yet.
    #[tactic(auto, unfolding(crate::specs::Logs::says))]
    pub fn read<'a>(&mut self, line: &'a [u8]) -> Result<LogLine<'a>, BadLogLine>
        ensures { (self.new, result) ≡ says self.old line.now }
    {
        let (log, says) = says_by(self.form.at_line(line), self.clock, line);
        *self = log;
        says
    }
}
