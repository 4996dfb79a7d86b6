//! The program's commands, each a table of words and options.

ghost use Rattle.std.specs.Prelude.{◌≡◌, IfOk, codes};
ghost use Rattle.clap.specs.Words.{new_app};
ghost use Rattle.conode_words.specs.Commands.{IsCommand, versioned};
ghost use Rattle.conode_words.specs.Tables.{with_commands};

use crate::found::is;
use crate::help;
use crate::options::Kind::{
    Flag, Lettered, ManyWanted, Numbered, NumberedOr, Repeated, Valued, Wanted, Worded,
};
use crate::options::{Subcommand, Texts, Word, command_of, new_command, with_commands};
use clap::Command;
use std::alloc::{AllocError, Global};

/// The most ms that an option takes.
const MOST_MS: u64 = 4_294_967_295;

/// The most bytes of room, and ms of an SDO timeout, that an option takes.
const MOST_ROOM: u64 = 65_535;

const STRINGS: Word = Word(
    "strings",
    NumberedOr(MOST_ROOM, "16"),
    "Room of a writable string, in bytes",
);

const DOMAINS: Word = Word(
    "domains",
    NumberedOr(MOST_ROOM, "889"),
    "Room of a domain, in bytes",
);

const TIME: Word = Word(
    "time",
    NumberedOr(MOST_ROOM, "1000"),
    "SDO timeout in ms, 0 for none",
);

const DEVICE_SHEET: Word = Word("SHEET", Wanted, "The device's data sheet (EDS, CiA 306)");

const DEVICE_NODE: Word = Word(
    "node",
    Numbered(1, 127),
    "The device's node-ID, 1 to 127; if not given, the sheet's",
);

const RECORDING: Word = Word(
    "TRACE",
    Wanted,
    "The recording, in a form that `convert` takes",
);

const RECORDING_FORM: Word = Word(
    "log",
    Worded("FORM", "auto"),
    "The recording's form, as for `convert`",
);

const TEXT_OR_JSON: Word = Word("format", Worded("FORMAT", "text"), "Form: text or json");

const CHECK: [Word; 4] = [
    Word("SHEET", Wanted, "The data sheet to check (EDS, CiA 306)"),
    Word(
        "node",
        Numbered(1, 127),
        "Also build its dictionary for node-ID 1 to 127",
    ),
    STRINGS,
    DOMAINS,
];

const LINT: [Word; 9] = [
    Word(
        "SHEET",
        ManyWanted,
        "Data sheets (EDS, DCF) and folders of them, - for standard input",
    ),
    Word(
        "node",
        Numbered(1, 127),
        "Also build dictionaries for node-ID 1 to 127",
    ),
    STRINGS,
    DOMAINS,
    Word(
        "format",
        Worded("FORMAT", "text"),
        "Form: text, json or sarif",
    ),
    Word("strict", Flag, "Count warnings as errors"),
    Word(
        "all",
        Flag,
        "Also print warnings that are a matter of taste",
    ),
    Word(
        "allow",
        Repeated("NAME"),
        "Suppress findings of this name; may be given again",
    ),
    Word(
        "color",
        Worded("WHEN", "auto"),
        "Colours: auto, always or never",
    ),
];

const DECODE: [Word; 3] = [
    Word(
        "TRACE",
        Wanted,
        "The CAN trace to decode, as `candump -L` writes it",
    ),
    Word(
        "sheet",
        Valued("SHEET"),
        "A data sheet whose names follow the keys",
    ),
    Word(
        "node",
        Numbered(1, 127),
        "Name the entries of node-ID 1 to 127 alone",
    ),
];

const REPLAY: [Word; 6] = [
    DEVICE_SHEET,
    Word(
        "TRACE",
        Wanted,
        "What it receives, as `candump -L` writes it",
    ),
    DEVICE_NODE,
    STRINGS,
    DOMAINS,
    TIME,
];

const LOOP: [Word; 8] = [
    DEVICE_SHEET,
    Word("KEY", Wanted, "The entry, as 2001:00"),
    Word("HEX", Wanted, "The bytes, in hexadecimal digits"),
    DEVICE_NODE,
    Word(
        "mode",
        Worded("MODE", "plain"),
        "How to transfer: plain, segmented or block",
    ),
    STRINGS,
    DOMAINS,
    TIME,
];

const SHOW: [Word; 3] = [
    Word(
        "SHEET",
        Wanted,
        "The data sheet to show (EDS or DCF, CiA 306)",
    ),
    Word(
        "node",
        Numbered(1, 127),
        "Show what $NODEID is for node-ID 1 to 127",
    ),
    Word(
        "format",
        Worded("FORMAT", "text"),
        "How to show it: text, markdown or json",
    ),
];

const ADAPT: [Word; 3] = [
    Word(
        "SHEET",
        Wanted,
        "The vendor's data sheet (EDS or DCF, CiA 306)",
    ),
    Word(
        "leading-zeros",
        Valued("BASE"),
        "How to read 010: octal or decimal",
    ),
    Word(
        "force",
        Flag,
        "Also drop bad limits, mappings, bit 30 of 1005h",
    ),
];

const EXPLAIN: [Word; 15] = [
    RECORDING,
    Word(
        "sheet",
        Repeated("SHEET"),
        "A data sheet; 5=SHEET: of node 5; may be given again",
    ),
    Word(
        "stamps",
        Lettered('t', "FORM", "relative"),
        "relative, absolute, delta or date",
    ),
    Word(
        "transfers",
        Flag,
        "Only a line for each SDO transfer that ended",
    ),
    Word(
        "changes",
        Flag,
        "PDOs, heartbeats, SYNCs only where they change",
    ),
    Word("stop", Flag, "End at the first bad line"),
    Word(
        "color",
        Worded("WHEN", "auto"),
        "Colours: auto, always or never",
    ),
    Word(
        "signal",
        Valued("SIGNALS"),
        "Values as CSV, of entries as 5:2001:01,5:2001:02",
    ),
    TEXT_OR_JSON,
    RECORDING_FORM,
    Word("of", Valued("NODES"), "Only lines of these nodes, as 5,8"),
    Word(
        "id",
        Valued("IDS"),
        "Only these identifiers, as 180-1FF,705",
    ),
    Word(
        "kind",
        Valued("KINDS"),
        "sdo, pdo, emcy, nmt, heartbeat, sync, other",
    ),
    Word(
        "from",
        Valued("TIME"),
        "From this second on, as 12.5, or stamp, @N",
    ),
    Word("to", Valued("TIME"), "Up to this second or stamp"),
];

const CONVERT: [Word; 2] = [
    Word(
        "LOG",
        Wanted,
        "What candump shows, a .trc of PCAN-View or a .asc of Vector",
    ),
    Word(
        "log",
        Worded("FORM", "auto"),
        "The form of the log, as named below",
    ),
];

const STATS: [Word; 5] = [
    RECORDING,
    Word(
        "sheet",
        Repeated("SHEET"),
        "A data sheet; 5=SHEET: of node 5; may be given again",
    ),
    Word(
        "bitrate",
        Valued("RATE"),
        "Bits per second, for the load: 500k, 1M, 125000",
    ),
    TEXT_OR_JSON,
    RECORDING_FORM,
];

const COMPARE: [Word; 16] = [
    DEVICE_SHEET,
    RECORDING,
    Word(
        "node",
        Numbered(1, 127),
        "The device's node-ID; if not given, the sheet's",
    ),
    Word("interface", Valued("NAME"), "The device's interface"),
    Word(
        "held",
        Valued("KEYS"),
        "Entries that keep what is written, as 2001:00,2010:00",
    ),
    Word(
        "strings",
        Numbered(0, MOST_ROOM),
        "Room of each writable string, in bytes, if known",
    ),
    Word(
        "domains",
        Numbered(0, MOST_ROOM),
        "Room of each domain, in bytes, if known",
    ),
    Word("choices", Flag, "Lists what CiA 301 leaves to the device"),
    Word(
        "learned",
        Flag,
        "Lists the values of entries that are shown",
    ),
    RECORDING_FORM,
    Word(
        "format",
        Worded("FORMAT", "text"),
        "Form: text, json, junit or html",
    ),
    Word(
        "tolerance",
        NumberedOr(MOST_MS, "10"),
        "Tolerance of times, in ms",
    ),
    Word(
        "drift",
        NumberedOr(100, "1"),
        "Drift of its clock, in percent, added",
    ),
    Word("answer", NumberedOr(MOST_MS, "1000"), "ms until an answer"),
    Word("boot", NumberedOr(MOST_MS, "10000"), "ms until a boot-up"),
    Word(
        "time",
        Numbered(0, MOST_ROOM),
        "Its SDO timeout in ms, 0 for none, if known",
    ),
];

/// The subcommands.
pub(crate) const COMMANDS: [Subcommand; 11] = [
    Subcommand {
        texts: &Texts {
            name: "check",
            usage: "conode check",
            about: "Checks a data sheet: what it has, or its first fault and its line",
            after_help: help::FAULTS,
        },
        words: &CHECK,
    },
    Subcommand {
        texts: &Texts {
            name: "lint",
            usage: "conode lint",
            about: "Finds all faults of data sheets, and what is suspicious in them",
            after_help: help::LINTED,
        },
        words: &LINT,
    },
    Subcommand {
        texts: &Texts {
            name: "decode",
            usage: "conode decode",
            about: "Decodes a CAN trace: each frame with what it says, by CiA 301",
            after_help: help::DECODED,
        },
        words: &DECODE,
    },
    Subcommand {
        texts: &Texts {
            name: "replay",
            usage: "conode replay",
            about: "Plays a CAN trace to the device of a data sheet",
            after_help: help::REPLAYED,
        },
        words: &REPLAY,
    },
    Subcommand {
        texts: &Texts {
            name: "loop",
            usage: "conode loop",
            about: "Downloads bytes to the device of a data sheet by an SDO client",
            after_help: help::LOOPED,
        },
        words: &LOOP,
    },
    Subcommand {
        texts: &Texts {
            name: "show",
            usage: "conode show",
            about: "Shows the object dictionary of a data sheet as people read it",
            after_help: help::SHOWN,
        },
        words: &SHOW,
    },
    Subcommand {
        texts: &Texts {
            name: "adapt",
            usage: "conode adapt",
            about: "Rewrites a vendor's data sheet to be accepted, and lists each change",
            after_help: help::ADAPTED,
        },
        words: &ADAPT,
    },
    Subcommand {
        texts: &Texts {
            name: "explain",
            usage: "conode explain",
            about: "Explains a recording: each frame with its times and what it says",
            after_help: help::EXPLAINED,
        },
        words: &EXPLAIN,
    },
    Subcommand {
        texts: &Texts {
            name: "convert",
            usage: "conode convert",
            about: "Writes a log of another recorder as `candump -L` does",
            after_help: help::CONVERTED,
        },
        words: &CONVERT,
    },
    Subcommand {
        texts: &Texts {
            name: "stats",
            usage: "conode stats",
            about: "Prints bus statistics on one page, what looks wrong first",
            after_help: help::COUNTED,
        },
        words: &STATS,
    },
    Subcommand {
        texts: &Texts {
            name: "compare",
            usage: "conode compare",
            about: "Reports where a recorded device deviates from CiA 301",
            after_help: help::COMPARED,
        },
        words: &COMPARE,
    },
];

// the command without its subcommands
fn only_conode<'a>(alloc: Global) -> Command<'a>
    ensures { IsCommand result (versioned (new_app (codes "conode"))) }
{
    new_command(
        alloc,
        "conode",
        "Checks CANopen data sheets, explains and compares recordings, acts as a device",
        help::TRACES,
    )
    .version(help::VERSION)
}

/// The program's command with the subcommands of a table.
pub(crate) fn conode_command<'a>(
    alloc: Global,
    rows: &[Subcommand],
) -> Result<Command<'a>, AllocError>
    ensures { IfOk result (λ command. IsCommand command
        (with_commands (versioned (new_app (codes "conode"))) rows.now)) }
{
    with_commands(alloc, only_conode(alloc), rows)
}

/// A subcommand by itself: an error about its words shows its usage.
pub(crate) fn subcommand_alone<'a>(
    alloc: Global,
    rows: &[Subcommand],
    name: &str,
) -> Result<Command<'a>, AllocError> {
    for row in rows {
        if is(row.texts.name, name) {
            let Ok(command) = command_of(alloc, row) else {
                return Err(AllocError);
            };
            return command.bin_name(row.texts.usage);
        }
    }
    Ok(only_conode(alloc))
}
