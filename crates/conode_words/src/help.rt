//! The longer texts of help, in lines of at most 80 columns.

/// What `--version` prints after the program's name: its version, and the kit that proves it.
pub const VERSION: &str = "0.39.0, proved with rattle-kit-13f logic dac8208d650f15bf";

/// What the program does without a command.
pub const TRACES: &str = "\
Without a command, standard input is read as a CAN trace, as `candump -L` writes
it, and played to node 5 of a small stored sheet: 1000:00, 1001:00 and 1018h.
What the node sends is printed as lines of a trace, and finally the numbers of
frames received, of frames sent and of ticks of 1 ms:

  conode < trace.log

Status: 0 if all of the trace was played, 1 if not; then the last line says why,
as `stopped: BadLine 3`.";

/// What `check` prints, and what to do about each fault.
pub const FAULTS: &str = "\
Prints `ok: 3 objects, 4 entries, 0 notes` and a line for each note, or the
sheet's first fault: its number, its name and its line (0 where no line is to
blame). With --node the last line is the sheet's build fault for that node-ID,
if it has one. Without it the node-ID of a device configuration file (DCF)
counts, and is printed after the notes, as `node 5`. Standard input is
/dev/stdin.

  conode check sensor.eds --node 5

Status: 0 if there is no fault, 1 if there is one, if the sheet can't be read
or if the output can't be written, 2 if the command line is wrong.

Faults, and what to do:
   1 TooLarge           more than 1,048,576 bytes, or a line of more than 512:
                        shorten it
   2 BadLine            a section line without `]`, or a line without `=` or
                        key: complete it, or put `;` before it
   3 KeyOutsideSection  a line before the first section: move it into one. A
                        comment begins with `;`, not `#`; save UTF-16 as UTF-8
   4 DuplicateSection   a section that was there before: remove one, or correct
                        its index
   5 DuplicateKey       a key that was there before in its section: remove one
   6 MissingSection     no [MandatoryObjects], or a listed object without
                        section: add it, or take it off the list. Its name is
                        the bare index: [1000], not [0x1000]
   7 BadNumber          a value that is not a number: write it as 10 or 0x0A, a
                        negative one as -10
   8 AmbiguousNumber    a decimal number with a leading 0, which some tools read
                        as octal: write 10 or 0x08
   9 BadList            SupportedObjects is missing, too high, or counts a
                        missing key, or an index is above FFFFh: number the
                        keys 1, 2, 3 (not 01=0x1005) without a gap, count them
  10 ListedTwice        an index that the lists have before: remove one, and
                        number the list again
  11 MissingKey         an entry without DataType or AccessType: add it, or the
                        ObjectType of an ARRAY or RECORD
  12 BadType            an ObjectType or DataType that is unknown or not the
                        required one: give the device's code
  13 LeftOutType        a data type that is not supported: take the object off
                        its list
  14 BadAccess          an AccessType other than ro, wo, rw, rwr, rww and const:
                        choose one of these
  15 BadLimits          a limit outside the type's range, or a LowLimit above
                        the HighLimit: correct it
  16 BadDefault         a default outside the type or the limits, or not of the
                        type's form: correct it
  17 MissingSub0        an ARRAY or RECORD without sub-index 0: describe it, or
                        make the object a VAR
  18 CompactForm        CompactSubObj or CompactPDO is not 0: describe each
                        sub-index in a section of its own
  19 MissingMandatory   1000h, 1001h or 1018h is in no list: list them, with
                        their sections
  20 Memory             memory ran out, and nothing is known of the sheet: run
                        it again with more memory

Notes are no faults:
  SubNumber             it is not the number of the object's sub-index sections;
                        one spelled otherwise, as [1018Sub 1], isn't read: write
                        [1018sub1]
  Unlisted              an object's section that no list names
  NodeId                NodeID of the device commissioning is not 1 to 127: give
                        the device's node-ID

Build faults, each with an index or an index and a sub-index:
   2 ValueRange         a default with $NODEID that is outside the type or the
                        limits for this node-ID: correct either
   3 BadCobId           a COB-ID that is reserved, belongs to an SDO channel or
                        has wrong bits: give a free one
   4 PdoPair            a PDO without its other object, or without a sub-index
                        that it needs: list or describe it
   5 BadMapping         a PDO that counts a missing or unmappable entry, a wrong
                        length, or more than 64 bits: correct the mapping, or
                        set PDOMapping=1 for the entry
   6 TooMany            over 16,384 entries: take objects out of the lists; or
                        over 16,777,216 bytes of room: lower --domains or
                        --strings";

/// What `lint` prints.
pub const LINTED: &str = "\
Prints every fault of each sheet (`check` prints only the first), and warnings
about what is legal but suspicious: file, line and column (in characters), what
is wrong, the line itself, and how to fix it; at most 1,000 a file. Of a folder
its *.eds and *.dcf are read. `-` is standard input.

  conode lint motor.eds io/ --node 5

The last line counts errors and warnings. With --node, faults of the sheet's
dictionary for that node-ID are errors too; without it the node-ID of a device
configuration file (DCF) counts.

--allow NAME, or a comment `; lint: allow NAME` in the sheet, suppresses the
findings with that name in brackets, as BadList.

Status: 0 without errors, 1 with an error (with --strict also with a warning),
if the output can't be written or memory ran out, 2 if a file can't be read or
the command line is wrong.";

/// The messages about unknown formats of `lint`, and colours of it and of `explain`.
pub const FORMATS: &str = "invalid value for '--format <FORMAT>': text, json or sarif";

pub const COLOURS: &str = "invalid value for '--color <WHEN>': auto, always or never";

/// What `replay` prints, and which node-ID its device has.
pub const REPLAYED: &str = "\
Makes the device of the sheet, plays the trace to it, and prints each frame that
it sends as a line of a trace: first its boot-up. A frame of the trace is one
that the device receives; event lines (`!write 2001:00 05`, `!tick 1000`, ..)
are what its application does, and time. An event that is refused is printed as
`; line 7 refused 06090030`. The last line has the numbers of frames received,
of frames sent and of ticks of 1 ms: `; in 1, out 3, ticks 1000`. `-` as TRACE
is standard input:

  candump -L can0 | conode replay sensor.eds - --node 5 | canplayer -t

Without --node the device has the node-ID of the sheet, a device configuration
file (DCF); where that has none, standard error has `no node-ID`.

Status: 0 if all of the trace was played, 1 if not; then the last line says why,
as `stopped: BadLine 3`, `fault 9 BadList line 1` or `build fault 3 BadCobId
1800:01`; 2 if the command line is wrong, or there is no node-ID.";

/// What `loop` prints, and which node-ID its device has.
pub const LOOPED: &str = "\
Makes the device of the sheet, lets an SDO client download HEX to its entry KEY,
and prints the frames of both as lines of a trace, and how it ended: `; done, 3
requests`, `; failed 06070012, 1 requests`, or `; gave up`. KEY is an index and
a sub-index, HEX pairs of digits, or `-` for no bytes.

  conode loop sensor.eds 2000:00 F401 --node 5 --mode block

Without --node the device has the node-ID of the sheet, a device configuration
file (DCF); where that has none, standard error has `no node-ID`.

Status: 0 if it is done, 1 if it isn't or the sheet has a fault, 2 if the
command line is wrong, or there is no node-ID.";

/// The message about an unknown mode of `loop`.
pub const MODES: &str = "invalid value for '--mode <MODE>': plain, segmented or block";

/// The message about an unknown form of `show`.
pub const SHOWN_FORMS: &str = "invalid value for '--format <FORMAT>': text, markdown or json";

/// What `show` prints.
pub const SHOWN: &str = "\
Prints the object dictionary of a sheet: a line for each entry, by index and
sub-index, with its name, type, access, whether it may be mapped into a PDO, its
default (for a DCF its value, then the default) and its limits. Then each PDO in
words, with what it maps, and SDO channels, SYNC, TIME, EMCY and heartbeats.
Numbers are in both bases, as `1000 (3E8h)`. With --node, or in a DCF with a
node-ID, `$NODEID+600h` has its value beside it. Compact forms are written out.
`-` as SHEET is standard input.

  conode show sensor.eds > new.txt; diff old.txt new.txt

A sheet with a fault is shown too, as far as it can be read. A value that can't
be read is printed as written. To find faults, use `check` or `lint`. --format
json prints one document.

Status: 0 if the dictionary is shown, 1 if not, 2 if the command line is
wrong.";

/// What `adapt` prints.
pub const ADAPTED: &str = "\
Prints the sheet with what can be rewritten safely: CompactSubObj as sections of
its own, REAL32 and REAL64 by their bits, times and texts in UTF-16 by their
bytes (the original type stays in OriginalDataType), keys of lists with leading
zeros, blanks in names of sections, a sub-index 0 without type or access, values
and limits with an extended sign, unsigned limits of signed numbers, the mark by
which DOS ends a file. Each change goes to standard error, as
`NAME:LINE: what changed: old -> new`; all other lines stay, but end with a line
feed alone.

  conode adapt vendor.eds > adapted.eds

`-` as SHEET is standard input. CompactPDO is written out as sections: PDOs that
aren't valid, with mappings of 0 entries, since the sheet doesn't say more.

--leading-zeros octal reads 010 as 8, --leading-zeros decimal as 10; without the
option it stays, and is reported with both readings. --force also makes changes
that lose something: a limit that is no number of its type becomes a comment,
faulty mappings, such as those of single bits, get 0 entries (a LowLimit above 0
there becomes a comment too), and bit 30 of 1005h is cleared.

If faults remain that no rule fixes, no sheet is printed, only the faults, on
standard error; `lint` says more of each. A sheet that is accepted already stays
as it is. The first line says what the sheet was made from: it is for this
program, not for configuration tools.

Status: 0 if a sheet is printed, 1 if not or if memory ran out, 2 if the file
can't be read or the command line is wrong.";

/// What `decode` prints.
pub const DECODED: &str = "\
Prints a line for each data frame with an 11-bit identifier: the number of its
line in the trace, the frame and what it says, as `12 605#4017100000000000 SDO
request node 5 upload 1017:00`. With --sheet the entry's name follows in quotes.
Empty lines, comments (`;`), event lines (`!`) and other frames print nothing.
`-` as TRACE is standard input.

  candump -L can0 | conode decode - --sheet sensor.eds

Status: 0 if all of the trace was decoded, 1 if not; then the last line says
why, as `stopped: BadLine 3`, or `fault 9 BadList line 1` for the sheet; 2 if
the command line is wrong.";

/// The message about an unknown base of leading zeros.
pub const LEADING_ZEROS: &str = "invalid value for '--leading-zeros <BASE>': octal or decimal";

/// The message about an unknown form of stamps.
pub const STAMPS: &str = "invalid value for '--stamps <FORM>': relative, absolute, delta or date";

/// The message about an unknown format of `explain` and `stats`.
pub const LINES_AS: &str = "invalid value for '--format <FORMAT>': text or json";

/// What `explain` prints.
pub const EXPLAINED: &str = "\
Prints a line for each frame of a recording, of every kind: its stamp, the time
since the frame before it, its interface (once a second one appears), its
identifier, its length and data, and what it says, the code of an SDO abort in
words:

     0.000400  +0.000012  581  [8] 80 00 20 00 11 00 09 06  SDO answer node 1
     abort 2000:00 06090011 (no such sub-index)        (this is one line)

After the last frame of an SDO transfer a line says how it went:

     0.012780  node 5  SDO upload 1008:00 9 bytes in 6 frames, 0.009 s: done

With --transfers only these lines are printed. The filters choose which lines
are printed; all transfers are still followed: --of by nodes, --id by
identifiers, --kind by services (TIME, LSS and what has no word there are in
`other`), --from and --to by times, in seconds since the first frame, or with a
leading `@` as stamps of the recording. A line is printed if it meets each
option that is used. With --changes a PDO, a heartbeat or a SYNC has a line only
where its data or its meaning differ from those of the last one on its
identifier and interface. --format json writes each line as an object of JSON.

With --signal a table is printed in place of these lines, as comma-separated
values: a first line with the names of the entries, and a line for each frame
that has a value of one of them, in a PDO, or at the end of an SDO transfer that
is done. Each entry has to be in a data sheet. It is named by its node-ID, index
and sub-index:

  conode explain drive.log --sheet 5=sensor.eds --signal 5:2001:01,5:2001:02

With --sheet entries have their names, and their values in expedited SDO
transfers and in PDOs, by the mapping that the recording shows, else by the
sheet's. The option may be given again: `--sheet 5=sensor.eds` is for node-ID 5,
and `--sheet can1:5=other.eds` for node-ID 5 on can1. Without a node-ID a device
configuration file (DCF) is for its own, and any other sheet for every node. A
sheet for the node takes precedence over one for every node; of these, one for
the interface, then the first that is given.

Empty lines, comments (`;`) and event lines (`!`) print nothing. A bad line is
named on standard error, with its number and what is wrong, and reading
continues; with --stop it ends there. On a terminal lines of a failure are red,
and those of a transfer that is done green, unless NO_COLOR is set or TERM is
dumb. `-` as TRACE is standard input; output is flushed before each read that
could wait. --stamps also takes candump's letters z, a, d and A. Logs of other
recorders are read as `convert` reads them: `conode convert --help` has --log.

A sheet with faults is read as `adapt` rewrites it, or without what is at fault,
which is said on standard error.

  candump -L can0 | conode explain - --sheet 5=sensor.eds --sheet drive.dcf

Status: 0 if all lines are good, or only the last line is bad and has no line
feed; 1 if a line is bad or the recording can't be read; 2 if the command line
is wrong.";

/// The message about an unknown form of logs.
pub const LOG_FORMS: &str =
    "invalid value for '--log <FORM>': auto, candump, screen, screen-delta, trc or asc";

/// What `stats` prints.
pub const COUNTED: &str = "\
Counts the frames of a recording and prints one page: what looks wrong, as
restarts, silent nodes, failed SDO transfers and EMCY messages; the load; the
states of each node; and the frames by interface and identifier, with their
gaps. Of a sheet its Baudrate and its producer heartbeat time are taken; it is
named, and read with faults, as for explain. `-` as TRACE is standard input.

  conode stats drive.log --bitrate 500k

--bitrate is a number of bits per second, also with k (times 1,000) or M (times
1,000,000), from 1000 to 1000000. --format json writes one object.

Status: 0 if all lines are good, or only the last line is bad and has no line
feed; 1 if a line is bad or the recording can't be read; 2 if the command line
is wrong.";

/// The message about an unknown format of `compare`.
pub const REPORTS_AS: &str = "invalid value for '--format <FORMAT>': text, json, junit or html";

/// The message about lines of `compare` that a document doesn't have.
pub const TEXT_LINES: &str = "'--choices' and '--learned' need '--format text'";

/// What `compare` prints.
pub const COMPARED: &str = "\
Compares a recorded device with what CiA 301 prescribes for its data sheet, and
prints what differs. Without --node the device has the node-ID of the sheet, a
device configuration file (DCF). `-` as TRACE is standard input. Times may
deviate by --tolerance plus --drift; --answer and --boot limit the wait for an
answer or a boot-up. An entry that --held names, an integer as 2001:00, has to
show the number that was written to it last. With --strings and --domains no
string or domain from 2000h on may take more bytes. With --time no transfer may
be aborted as timed out before. --choices lists what the device chose where CiA
301 leaves a choice, --learned at the end the numbers that SDO transfers showed;
both need --format text.

A frame is unjudged where the recording doesn't show enough, as before the first
boot-up. A line with `warning:` is about the recording, the sheet or a value
that changed by itself, and leaves the status as it is. A sheet with faults
isn't compared: `conode lint` lists them, `conode adapt` rewrites a vendor's.

  conode compare sensor.eds drive.log --node 5
  conode compare sensor.eds drive.log --node 5 --held 2001:00,2010:00

--format json writes one document in place of the lines, junit one for build
servers, and html a page, with the lines around each difference, what the
recording covers, and a picture of the bus over time.

Status: 0 if nothing differs, 1 if something does, 2 if nothing can be compared
or the command line is wrong.";

/// What `convert` prints.
pub const CONVERTED: &str = "\
Prints a line as `candump -L` writes it for each frame of a log, of every kind:
data, remote, CAN FD and error frames, with the direction where the log has it.
The form of the log is detected from its first lines, or given by --log:

  candump       `candump -L`: the lines pass as they are
  screen        what candump shows, with -t a, -t z, -t A or without stamps, -x,
                -a, -e and colours; without stamps each frame is at 0
  screen-delta  the same with -t d, which looks like -t z: it has to be named
  trc           PCAN-View and PCAN-Explorer: version 1.1, 1.3, 2.0 or 2.1
  asc           CANalyzer and CANoe: base hex or dec, absolute or relative

  conode convert drive.trc | conode explain - --sheet 5=sensor.eds

Channel or bus 1 is can0. Stamps are those of the log: a .trc and a .asc count
from the beginning of the recording. A bad line is named on standard error, with
its number and what is wrong, and reading continues. `-` as LOG is standard
input.

Status: 0 if all lines are good, or only the last line is bad and has no line
feed; 1 if a line is bad or the log can't be read; 2 if the command line is
wrong.";
