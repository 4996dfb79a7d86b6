//! The statistics as one JSON document. Each function writes tokens.

ghost use Rattle.conode_stats_text.specs.Papers.{IsAppended};
ghost use Rattle.conode_stats.specs.Parts.{word_text};
ghost use Rattle.conode_stats.specs.StatsTokens.{
  load_members,
  object_of,
  row_tokens,
  tally_members,
};

use crate::document::Document;
use crate::failure_tokens::put_failures;
use crate::node_tokens::put_nodes;
use crate::parts::{Part, Word};
use conode_stats_counts::{Bus, Load, Row, Tally};
use conode_stats_text::{Page, gap_of, sheet_rate, sorted_rows};
use std::alloc::{AllocError, Global};

// the beginning of an object: what is counted, and the tally
#[tactic(auto, unfolding(crate::specs::StatsTokens::tally_members))]
fn put_tally<'p>(document: &mut Document, name: &'p str, word: Word<'p>, tally: &Tally)
    ensures { IsAppended document.old (object_of name.entry.now (word_text word.entry)
        (tally_members tally.now)) document.new }
{
    document.put(&[
        Part::BeginObject,
        Part::Word(name, word),
        Part::Number("frames", tally.frames),
        Part::Number("first", tally.first),
        Part::Number("last", tally.last),
        Part::Number("stepsBack", tally.steps_back),
        Part::Number("gaps", tally.gaps),
        Part::Number("sumOfGaps", tally.total),
        Part::NumberIf("smallestGap", gap_of(tally, tally.smallest)),
        Part::NumberIf("greatestGap", gap_of(tally, tally.greatest)),
    ]);
}

// an identifier
#[tactic(auto, using(conode_stats_text::proofs::Appended::both), unfolding(crate::specs::StatsTokens::row_tokens))]
fn put_row(document: &mut Document, row: &Row)
    ensures { IsAppended document.old (row_tokens row.now) document.new }
{
    put_tally(document, "id", Word::Id(row.can_id), &row.tally);
    document.put(&[Part::EndObject]);
}

#[tactic(auto, unfolding(crate::specs::StatsTokens::load_members))]
fn put_load(document: &mut Document, load: &Load)
    ensures { IsAppended document.old (load_members load.entry.now) document.new }
{
    document.put(&[
        Part::Number("bits", load.bits),
        Part::Number("worstCaseBits", load.most),
        Part::Number("framesWithoutBits", load.unknown),
        Part::Number("busiestSecond", load.busiest.second),
        Part::Number("busiestSecondBits", load.busiest.bits),
        Part::Number("busiestSecondWorstCaseBits", load.busiest.most),
    ]);
}

// identifiers, and the end of their bus
fn put_rows(document: &mut Document, rows: &[Row]) {
    document.put(&[Part::Array("identifiers")]);
    for row in rows {
        put_row(document, row);
    }
    document.put(&[Part::EndArray, Part::EndObject]);
}

// the identifiers of a bus, the smallest first, and its end
fn put_rows_on(alloc: Global, document: &mut Document, bus: &Bus) {
    match sorted_rows(alloc, bus) {
        Ok(rows) => put_rows(document, rows.as_slice()),
        Err(fault) => document.end(fault),
    }
}

// a bus
fn put_bus(alloc: Global, document: &mut Document, page: &Page<'_>, bus: &Bus) {
    let name = Word::Name(bus.interface());
    put_tally(document, "interface", name, &bus.all());
    put_load(document, &bus.load());
    document.put(&[Part::NumberIf("bitRate", own_rate(page, bus.interface()))]);
    put_failures(document, bus);
    put_nodes(document, page.sheets, bus);
    put_rows_on(alloc, document, bus);
}

// the bit rate of an interface, if it is known
fn rate_of(page: &Page<'_>, interface: &[u8]) -> Option<u64> {
    match sheet_rate(page.bit_rate, page.sheets, interface) {
        Some(rate) => Some(rate as u64),
        None => None,
    }
}

// the bit rate of an interface, if it isn't that of the others
fn own_rate(page: &Page<'_>, interface: &[u8]) -> Option<u64> {
    let rate = rate_of(page, interface);
    if rate == rate_of(page, b"") {
        None
    } else {
        rate
    }
}

/// The statistics as one JSON object, with a line feed at its end. `Err`: out of memory.
pub(crate) fn page_json(alloc: Global, page: &Page<'_>) -> Result<Vec<u8>, AllocError> {
    let mut document = Document::new(alloc);
    document.put(&[
        Part::BeginObject,
        Part::Number("version", 1),
        Part::Number("badLines", page.bad),
        Part::Number("framesLeftOut", page.counts.left_out()),
        Part::NumberIf("bitRate", rate_of(page, b"")),
        Part::Array("buses"),
    ]);
    for bus in page.counts.buses() {
        put_bus(alloc, &mut document, page, bus);
    }
    document.put(&[Part::EndArray, Part::EndObject]);
    document.into_text()
}
