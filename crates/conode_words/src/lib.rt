//! What the words of the command line ask for, and the text of help.
#![tactic(auto)]

mod asked;
mod choices;
mod command_line;
mod commands;
mod found;
mod help;
mod options;
mod tasks;

pub use command_line::task;
pub use help::VERSION;
pub use tasks::{
    AdaptWords, CheckWords, Colours, CompareWords, ConvertWords, DecodeWords, DeviceWords,
    DictionaryWords, ExplainWords, Format, LeadingZeros, LinesAs, LintWords, LogForm, LoopWords,
    Mode, OnlyWords, ReplayWords, ReportAs, RoomWords, ShowWords, ShownAs, Stamps, StatsWords,
    Task, TimingWords,
};
