//! The NMT states, by a byte of error control and by commands, and the transitions between them
//! (CiA 301, 7.3.2.2).

ghost use Rattle.std.specs.Prelude.{◌≡◌};
ghost use Rattle.conode_compare_nmt.specs.States.{
  either_state,
  freer,
  goes_to,
  is_guarded_state,
  is_reset,
  is_state,
  is_turn,
  is_up,
  is_wrong,
  same_state,
  state_after,
  state_commanded,
  state_of,
};

use crate::finding::NmtState;
use co_frame::NmtService;

/// Whether a command is a reset.
pub fn is_reset(service: NmtService) -> bool
    ensures { result ≡ is_reset service }
{
    matches!(
        service,
        NmtService::ResetNode | NmtService::ResetCommunication
    )
}

/// The state that a device goes to by a command.
pub(crate) fn goes_to(service: NmtService) -> NmtState
    ensures { result ≡ goes_to service }
{
    match service {
        NmtService::Start => NmtState::Operational,
        NmtService::Stop => NmtState::Stopped,
        NmtService::EnterPreOperational => NmtState::PreOperational,
        NmtService::ResetNode | NmtService::ResetCommunication => NmtState::Initialising,
    }
}

// the state after a command
fn state_commanded(service: NmtService, state: NmtState) -> NmtState
    ensures { result ≡ state_commanded service state }
{
    if is_reset(service) {
        return NmtState::Initialising;
    }
    match state {
        NmtState::Unknown | NmtState::Initialising => state,
        _ => goes_to(service),
    }
}

// the state where a device is in one of the two
fn either_state(before: NmtState, after: NmtState) -> NmtState
    ensures { result ≡ either_state before after }
{
    match (before, after) {
        (NmtState::Initialising, NmtState::Initialising)
        | (NmtState::PreOperational, NmtState::PreOperational)
        | (NmtState::Operational, NmtState::Operational)
        | (NmtState::Stopped, NmtState::Stopped) => before,
        _ => NmtState::Unknown,
    }
}

/// Of the two states that a device may be in, the one in which it may send more.
pub(crate) fn freer(state: NmtState, due: NmtState) -> NmtState
    ensures { result ≡ freer state due }
{
    match (state, due) {
        (NmtState::PreOperational | NmtState::Stopped, NmtState::Operational)
        | (NmtState::Stopped, NmtState::PreOperational) => due,
        _ => state,
    }
}

/// Whether two known states are one.
pub(crate) fn same_state(state: NmtState, other: NmtState) -> bool
    ensures { result ≡ same_state state other }
{
    matches!(
        (state, other),
        (NmtState::PreOperational, NmtState::PreOperational)
            | (NmtState::Operational, NmtState::Operational)
            | (NmtState::Stopped, NmtState::Stopped)
    )
}

/// Whether a device went by itself to a state that forbids more, or was stopped.
pub(crate) fn is_turn(state: NmtState, shown: NmtState) -> bool
    ensures { result ≡ is_turn state shown }
{
    matches!(
        (state, shown),
        (NmtState::Operational, NmtState::PreOperational)
            | (
                NmtState::Operational | NmtState::PreOperational | NmtState::Unknown,
                NmtState::Stopped
            )
            | (
                NmtState::Stopped,
                NmtState::PreOperational | NmtState::Operational
            )
    )
}

/// The state after a command; the NMT master needn't follow its own ones.
pub(crate) fn state_after(service: NmtService, own: bool, state: NmtState) -> NmtState
    ensures { result ≡ state_after service own state }
{
    let commanded = state_commanded(service, state);
    if own {
        either_state(state, commanded)
    } else {
        commanded
    }
}

/// Whether a device has booted up and wasn't reset since.
pub(crate) fn is_up(state: NmtState) -> bool
    ensures { result ≡ is_up state }
{
    !matches!(state, NmtState::Unknown | NmtState::Initialising)
}

/// The state that a heartbeat's byte names.
pub(crate) fn state_of(byte: u8) -> NmtState
    ensures { result ≡ state_of byte }
{
    match byte {
        4 => NmtState::Stopped,
        5 => NmtState::Operational,
        127 => NmtState::PreOperational,
        _ => NmtState::Unknown,
    }
}

/// Whether a byte of error control can only be an answer of node guarding: a state with its toggle
/// bit set.
pub(crate) fn is_guarded_state(byte: u8) -> bool
    ensures { result ≡ is_guarded_state byte }
{
    byte == 0x84 || byte == 0x85 || byte == 0xFF
}

/// Whether a byte of error control is a state other than that of a boot-up.
pub(crate) fn is_state(byte: u8) -> bool
    ensures { result ≡ is_state byte }
{
    byte == 4 || byte == 5 || byte == 127
}

/// Whether a device can't have reached a state by itself.
pub(crate) fn is_wrong(starts_itself: bool, state: NmtState, shown: NmtState) -> bool
    ensures { result ≡ is_wrong starts_itself state shown }
{
    match (state, shown) {
        (NmtState::PreOperational, NmtState::Operational) => !starts_itself,
        (NmtState::Stopped, NmtState::Operational | NmtState::PreOperational) => true,
        _ => false,
    }
}
