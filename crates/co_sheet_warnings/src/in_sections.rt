//! The kinds of warnings that are about a section.

ghost use Rattle.std.specs.Prelude.{◌≡◌, option_to_list};
ghost use Rattle.co_sheet_text.specs.Views.{section_view};
ghost use Rattle.co_sheet_warnings.specs.Warnings.{places_in};

use crate::accesses::wrong_access;
use crate::cob_ids::{fixed_cob_id, node_id_place};
use crate::communication::{heartbeat_twice, inhibit_time, own_heartbeat};
use crate::limits::negative_limit;
use crate::node_id_sums::node_id_sum;
use crate::reserved_values::reserved_value;
use crate::sub_indices::{
    mandatory_form, missing_name, sub_index_0, sub_number, unlisted, var_sub_indices,
};
use crate::types::wrong_type;
use co_sheet_text::TextSection;
use co_sheet_text_warnings::{ReadText, WarningKind, misspelt_section, no_node_id};

/// The line of a section where a kind applies.
#[tactic(auto, unfolding(crate::specs::Warnings::places_in))]
pub(crate) fn place_in(text: &ReadText, kind: WarningKind, section: &TextSection) -> Option<usize>
    ensures { option_to_list result ≡ places_in text.now kind (section_view section.now) }
{
    match kind {
        WarningKind::SubNumber => sub_number(text, section),
        WarningKind::SubIndex0 => sub_index_0(text, section),
        WarningKind::VarSubIndices => var_sub_indices(text, section),
        WarningKind::MandatoryForm => mandatory_form(text, section),
        WarningKind::Unlisted => unlisted(text, section),
        WarningKind::FixedCobId => fixed_cob_id(text, section),
        WarningKind::NodeIdPlace => node_id_place(section),
        WarningKind::NodeIdSum => node_id_sum(text.node, section),
        WarningKind::NegativeLimit => negative_limit(section),
        WarningKind::ReservedValue => reserved_value(section),
        WarningKind::WrongAccess => wrong_access(section),
        WarningKind::WrongType => wrong_type(text, section),
        WarningKind::MisspeltSection => misspelt_section(text, section),
        WarningKind::InhibitTime => inhibit_time(text, section),
        WarningKind::OwnHeartbeat => own_heartbeat(text.node, section),
        WarningKind::HeartbeatTwice(_) => heartbeat_twice(text, text.node, section),
        WarningKind::NodeId => no_node_id(section),
        WarningKind::MissingName => missing_name(section),
        _ => None,
    }
}
