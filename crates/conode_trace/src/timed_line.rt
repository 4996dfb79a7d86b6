//! What a line of a trace gives, and when.

ghost use Rattle.std.specs.Prelude.{◌≡◌, ◌+◌, ◌<◌, ◌^◌, max, IfSome, IfNone};
ghost use Rattle.std.specs.Option.{option_map};
ghost use Rattle.conode_trace.specs.Traces.{moved, timed};
ghost use Rattle.conode_trace.specs.FrameLines.{WritesFewBytes};

use crate::clock::Clock;
use crate::event_line::EventLine;
use crate::trace_line::TraceLine;

/// A line of a trace, with the ticks before its own input, and the times of both.
#[derive(Drop)]
pub struct TimedLine<'a> {
    /// The number of the line, from 1.
    pub number: usize,
    /// The clock before the line, in ms.
    pub before: u128,
    /// How many ticks of 1 ms come first, at most 86,400,000: the clock at the i-th of them, from
    /// 1, is `before` + i.
    pub ticks: u32,
    /// The clock after the ticks, at the line's own input, in ms.
    pub ms: u128,
    /// What the line says. A data frame, or an event of the application, is the line's own input
    /// after its ticks; the others have none.
    pub said: TraceLine<'a>,
}

// advances the clock by what a line says, and returns the ticks elapsed
fn moved(clock: &mut Clock, said: &TraceLine<'_>) -> Option<u32>
    requires { clock.old.ms + 2 ^ 32 < 2 ^ 128 }
    ensures exact { option_map (λ ticks. (ticks, clock.new)) result ≡ moved clock.old said.now }
    ensures bad { IfNone result (clock.new ≡ clock.old) }
    ensures bounded { clock.new.ms < max clock.old.ms (2 ^ 64) + 2 ^ 32 }
{
    match said {
        TraceLine::PassedOver { stamp } | TraceLine::Data { stamp, .. } => clock.move_to(*stamp),
        TraceLine::Event(EventLine::Ticks(count)) => {
            clock.move_by(*count);
            Some(*count)
        }
        _ => Some(0),
    }
}

impl<'a> TimedLine<'a> {
    /// Reads the line of this number, and advances the clock. `None` if it is no line of a trace,
    /// or its stamp is more than a day past the clock: the clock stays.
    #[tactic(auto, unfolding(crate::specs::Traces::timed))]
    pub(crate) fn read(number: usize, clock: &mut Clock, line: &'a [u8]) -> Option<TimedLine<'a>>
        requires { clock.old.ms + 2 ^ 32 < 2 ^ 128 }
        ensures exact { option_map (λ t. (t, clock.new)) result ≡ timed number clock.old line.now }
        ensures few { IfSome result (λ t. WritesFewBytes t.said) }
        ensures before { IfSome result (λ t. t.before ≡ clock.old.ms) }
        ensures bad { IfNone result (clock.new ≡ clock.old) }
        ensures bounded { clock.new.ms < max clock.old.ms (2 ^ 64) + 2 ^ 32 }
    {
        let before = clock.ms();
        let said = TraceLine::read(line)?;
        let ticks = moved(clock, &said)?;
        Some(TimedLine {
            number,
            before,
            ticks,
            ms: clock.ms(),
            said,
        })
    }
}
