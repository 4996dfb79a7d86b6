//! Progress through a trace.

ghost use Rattle.std.specs.Prelude.{◌≡◌, ℕ, ◌+◌, ◌<◌, ◌^◌, List, [], ◌∷◌, length, Some, IfOk, IfErr, OnOk, OnErr};
ghost use Rattle.conode_trace.specs.FrameLines.{WritesFewBytes};
ghost use Rattle.conode_trace.specs.Traces.{inputs_of, preceded, trace_of, trace_next};

use crate::clock::Clock;
use crate::timed_line::TimedLine;
use std::marker::Model;

/// A line that is no line of a trace, or whose stamp is too far past the clock, by its number from
/// 1.
#[derive(Clone, Copy, Debug, PartialEq, Eq)]
pub struct BadLine(pub usize);

/// Progress through a trace: the number of lines read, and the clock after them. It takes one line
/// at a time, from any source. Contracts see both.
#[derive(Drop)]
pub struct TraceProgress {
    number: usize,
    clock: Clock,
}

impl Model for TraceProgress {
    ghost use Rattle.conode_trace.specs.Traces.{Progress};
    ghost use Rattle.std.specs.Prelude.{◌+◌, ◌*◌, ◌≤◌, ◌^◌};

    ghost Value = { Progress };

    ghost view = { λ p. record { number = p.number; clock = p.clock } };

    ghost invariant = { λ p. p.clock.ms ≤ 2 ^ 64 + 2 ^ 32 * p.number };
}

impl TraceProgress {
    /// Before the first line of a trace.
    #[tactic(auto, unfolding(crate::specs::Traces::trace_next, crate::specs::Traces::trace_of))]
    pub fn new() -> Self
        ensures trace { (lines : List (List ℕ)) → trace_next result lines ≡ trace_of lines }
        ensures number { result.number ≡ 0 }
    {
        TraceProgress {
            number: 0,
            clock: Clock::new(),
        }
    }

    /// Reads the next line. `Err` has its number if it is no line of a trace, or if its stamp is
    /// more than a day past the clock: nothing then changes.
    pub fn read<'a>(&mut self, line: &'a [u8]) -> Result<TimedLine<'a>, BadLine>
        requires { self.old.number + 1 < 2 ^ 64 }
        // the inputs of this line and of those after it are the inputs of all
        ensures line { IfOk result (λ read. (more : List (List ℕ)) →
            trace_next self.old (line.now ∷ more)
            ≡ preceded (inputs_of read) (trace_next self.new more)) }
        ensures few { IfOk result (λ read. WritesFewBytes read.said) }
        // the clock of each of its ticks fits
        ensures early { IfOk result (λ read. read.before + 2 ^ 32 < 2 ^ 128) }
        ensures number { OnOk result (self.new.number ≡ self.old.number + 1) }
        ensures bad { IfErr result (λ fault. (more : List (List ℕ)) →
            trace_next self.old (line.now ∷ more) ≡ record { inputs = []; bad = Some fault.0 }) }
        ensures bad_stays { OnErr result (self.new ≡ self.old) }
    {
        let number = self.number + 1;
        let mut clock = self.clock;
        let Some(timed) = TimedLine::read(number, &mut clock, line) else {
            return Err(BadLine(number));
        };
        *self = TraceProgress { number, clock };
        Ok(timed)
    }

    /// The fault of the next line, if that has more than 512 bytes.
    pub fn too_long(&self) -> BadLine
        requires { self.now.number + 1 < 2 ^ 64 }
        ensures { (line : List ℕ) (more : List (List ℕ)) → 512 < length line →
            trace_next self.now (line ∷ more) ≡ record { inputs = []; bad = Some result.0 } }
    {
        BadLine(self.number + 1)
    }
}
