//! What the program can be asked to do.

/// How the object dictionary of a sheet is built.
#[derive(Clone, Copy)]
pub struct DictionaryWords {
    /// The node-ID that it is built for, 1 to 127; `None`: the sheet's own.
    pub node: Option<u8>,
    /// The room of each writable string, in bytes.
    pub strings: u16,
    /// The room of each domain, in bytes.
    pub domains: u16,
}

/// How a device is built.
#[derive(Clone, Copy)]
pub struct DeviceWords {
    /// Its node-ID and its rooms.
    pub dictionary: DictionaryWords,
    /// The SDO timeout in ms; 0 disables it.
    pub time: u16,
}

/// How `loop` transfers.
#[derive(Clone, Copy)]
pub enum Mode {
    /// Expedited where it fits, else in segments.
    Plain,
    /// In segments.
    Segmented,
    /// In blocks.
    Block,
}

/// The form in which a dictionary is shown.
#[derive(Clone, Copy)]
pub enum ShownAs {
    /// In columns.
    Columns,
    /// As tables and headings of Markdown.
    Markdown,
    /// As one document of JSON.
    Json,
}

/// How `adapt` reads a number with a leading zero.
#[derive(Clone, Copy)]
pub enum LeadingZeros {
    Octal,
    Decimal,
}

/// In which form `explain` writes stamps.
#[derive(Clone, Copy)]
pub enum Stamps {
    /// Since the first frame.
    Relative,
    /// As the recording has them.
    Absolute,
    /// Since the frame before.
    Delta,
    /// As dates and times of day, UTC.
    Date,
}

/// The form of a log.
#[derive(Clone, Copy)]
pub enum LogForm {
    /// The one that its first lines show.
    Auto,
    /// Lines as `candump -L` writes them.
    Candump,
    /// What candump shows on a screen.
    Screen,
    /// The same, with stamps counted from the line before.
    ScreenDelta,
    /// A `.trc` of PCAN-View.
    Trc,
    /// A `.asc` of CANalyzer.
    Asc,
}

/// How far the times of a recorded device may be off, and how long it may take.
#[derive(Clone, Copy)]
pub struct TimingWords {
    /// The tolerance, in ms.
    pub tolerance: u32,
    /// The drift, in percent; it adds to the tolerance.
    pub drift: u8,
    /// How long an answer may take, in ms.
    pub answer: u32,
    /// How long a boot-up may take, in ms.
    pub boot: u32,
    /// The timeout of its SDO server, in ms; 0: it has none; `None`: it isn't known.
    pub time: Option<u16>,
}

/// The room of a recorded device's strings and domains, in bytes; `None`: it isn't known.
#[derive(Clone, Copy)]
pub struct RoomWords {
    /// Of each writable string.
    pub strings: Option<u16>,
    /// Of each domain.
    pub domains: Option<u16>,
}

/// How `explain` and `stats` write.
#[derive(Clone, Copy, PartialEq, Eq)]
pub enum LinesAs {
    /// As text.
    Text,
    /// As JSON.
    Json,
}

/// How `compare` writes what it finds.
#[derive(Clone, Copy)]
pub enum ReportAs {
    /// A line for each difference.
    Text,
    /// As one document of JSON.
    Json,
    /// As a document of JUnit, for build servers.
    JUnit,
    /// As one page of HTML.
    Html,
}

/// How `lint` writes what it finds.
#[derive(Clone, Copy)]
pub enum Format {
    /// As compilers print.
    Text,
    /// As one document of JSON.
    Json,
    /// As a log of SARIF 2.1.0.
    Sarif,
}

/// When `lint` and `explain` write in colours.
#[derive(Clone, Copy)]
pub enum Colours {
    /// On a terminal, unless the environment has NO_COLOR.
    Auto,
    Always,
    Never,
}

/// What `lint` is asked to do.
#[derive(Drop)]
pub struct LintWords<'a> {
    /// The paths of sheets and folders, `-` for standard input.
    pub sheets: Vec<&'a str>,
    /// The names of the findings that are allowed.
    pub allowed: Vec<&'a str>,
    /// The dictionary that is to be built from each sheet.
    pub dictionary: DictionaryWords,
    /// How it writes what it finds.
    pub format: Format,
    /// When it writes in colours.
    pub colours: Colours,
    /// Whether a warning counts as an error.
    pub strict: bool,
    /// Whether to include the quiet warnings.
    pub all: bool,
}

/// The options that choose which lines `explain` prints, as words; `None` if one isn't used.
#[derive(Clone, Copy)]
pub struct OnlyWords<'a> {
    /// Of which nodes.
    pub of: Option<&'a str>,
    /// With which identifiers.
    pub id: Option<&'a str>,
    /// Of which kinds.
    pub kind: Option<&'a str>,
    /// From when on.
    pub from: Option<&'a str>,
    /// Until when.
    pub to: Option<&'a str>,
}

/// What `check` is asked to do.
#[derive(Clone, Copy)]
pub struct CheckWords<'a> {
    /// The sheet's path.
    pub sheet: &'a str,
    /// The dictionary that is to be built from it.
    pub dictionary: DictionaryWords,
}

/// What `decode` is asked to do.
#[derive(Clone, Copy)]
pub struct DecodeWords<'a> {
    /// The trace's path, `-` for standard input.
    pub trace: &'a str,
    /// The path of a data sheet with the names of entries; `None`: they aren't named.
    pub sheet: Option<&'a str>,
    /// The node-ID whose entries are named, 1 to 127; `None`: those of all nodes are.
    pub node: Option<u8>,
}

/// What `replay` is asked to do.
#[derive(Clone, Copy)]
pub struct ReplayWords<'a> {
    /// The sheet's path.
    pub sheet: &'a str,
    /// The trace's path, `-` for standard input.
    pub trace: &'a str,
    /// The device.
    pub device: DeviceWords,
}

/// What `loop` is asked to do.
#[derive(Clone, Copy)]
pub struct LoopWords<'a> {
    /// The sheet's path.
    pub sheet: &'a str,
    /// The word of the entry's key.
    pub key: &'a str,
    /// The word of the bytes.
    pub bytes: &'a str,
    /// The SDO protocol of the transfer.
    pub mode: Mode,
    /// The device.
    pub device: DeviceWords,
}

/// What `show` is asked to do.
#[derive(Clone, Copy)]
pub struct ShowWords<'a> {
    /// The sheet's path.
    pub sheet: &'a str,
    /// The node-ID that `$NODEID` stands for, 1 to 127; `None`: the sheet's own, if it has one.
    pub node: Option<u8>,
    /// The form in which it is shown.
    pub shown_as: ShownAs,
}

/// What `adapt` is asked to do.
#[derive(Clone, Copy)]
pub struct AdaptWords<'a> {
    /// The sheet's path.
    pub sheet: &'a str,
    /// How a number with a leading zero is read; `None`: it stays as it is.
    pub leading_zeros: Option<LeadingZeros>,
    /// Whether to force what the rules leave at fault.
    pub force: bool,
}

/// What `explain` is asked to do.
#[derive(Drop)]
pub struct ExplainWords<'a> {
    /// The recording's path, `-` for standard input.
    pub trace: &'a str,
    /// The words that name data sheets: each a path, perhaps after an interface and a node-ID,
    /// as `can1:5=sensor.eds`.
    pub sheets: Vec<&'a str>,
    /// In which form stamps are written.
    pub stamps: Stamps,
    /// Whether only the SDO transfers that ended have lines.
    pub transfers: bool,
    /// Whether PDOs, heartbeats and SYNCs have lines only where they change.
    pub changes: bool,
    /// Whether the first bad line ends it.
    pub stop: bool,
    /// When it writes in colours.
    pub colours: Colours,
    /// How lines are written.
    pub lines_as: LinesAs,
    /// In which form the recording is.
    pub form: LogForm,
    /// Which lines are printed.
    pub only: OnlyWords<'a>,
    /// The word that names the signals whose values are printed as a table; `None`: it isn't
    /// given.
    pub signals: Option<&'a str>,
}

/// What `stats` is asked to do.
#[derive(Drop)]
pub struct StatsWords<'a> {
    /// The recording's path, `-` for standard input.
    pub trace: &'a str,
    /// The words that name data sheets, as those of `explain`.
    pub sheets: Vec<&'a str>,
    /// The word for the bit rate of the bus; `None`: it isn't given.
    pub bit_rate: Option<&'a str>,
    /// How the page is written.
    pub lines_as: LinesAs,
    /// In which form the recording is.
    pub form: LogForm,
}

/// What `compare` is asked to do.
#[derive(Clone, Copy)]
pub struct CompareWords<'a> {
    /// The sheet's path.
    pub sheet: &'a str,
    /// The recording's path, `-` for standard input.
    pub trace: &'a str,
    /// The device's node-ID, 1 to 127; `None`: the sheet's.
    pub node: Option<u8>,
    /// The interface that it is on; `None`: each.
    pub interface: Option<&'a str>,
    /// The keys of the entries that are held to what was written; `None`: none.
    pub held: Option<&'a str>,
    /// The room of its strings and domains.
    pub rooms: RoomWords,
    /// Whether choices have lines.
    pub choices: bool,
    /// Whether the values of entries have lines.
    pub learned: bool,
    /// In which form the recording is.
    pub form: LogForm,
    /// How it writes what it finds.
    pub report_as: ReportAs,
    /// How far times may be off.
    pub timing: TimingWords,
}

/// What `convert` is asked to do.
#[derive(Clone, Copy)]
pub struct ConvertWords<'a> {
    /// The log's path, `-` for standard input.
    pub log: &'a str,
    /// In which form it is.
    pub form: LogForm,
}

/// What the program is asked to do.
#[derive(Drop)]
pub enum Task<'a> {
    /// To check a data sheet.
    Check(CheckWords<'a>),
    /// To find all faults of data sheets, and what is suspicious in them.
    Lint(LintWords<'a>),
    /// To decode a trace.
    Decode(DecodeWords<'a>),
    /// To play a trace to the device of a data sheet.
    Replay(ReplayWords<'a>),
    /// To download bytes by an SDO client to the device of a data sheet.
    LoopBack(LoopWords<'a>),
    /// To show the object dictionary of a data sheet.
    Show(ShowWords<'a>),
    /// To rewrite a vendor's data sheet to one that is accepted.
    Adapt(AdaptWords<'a>),
    /// To explain a recording.
    Explain(ExplainWords<'a>),
    /// To print the statistics of a bus on one page.
    Stats(StatsWords<'a>),
    /// To compare a recorded device with what its data sheet prescribes.
    Compare(CompareWords<'a>),
    /// To convert a log of another recorder.
    Convert(ConvertWords<'a>),
}
