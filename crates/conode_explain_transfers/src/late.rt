//! The last segment of a block transfer that comes again after its acknowledge.

ghost use Rattle.std.specs.Prelude.{◌≡◌};
ghost use Rattle.conode_explain_transfers.specs.Hearings.{
  after_late,
  is_again_acknowledged,
  is_all_acknowledged,
  late,
  late_segment,
};

use crate::channel::{Channel, Heard};
use crate::hearing::is_low_last;
use crate::kinds::{Side, What};
use crate::stage::Stage;
use crate::transfer::Transfer;
use crate::unanswered::number_of;
use co_frame::Frame;

impl Stage {
    // Whether the last segment is acknowledged, and the end didn't come.
    fn is_all_acknowledged(self) -> bool
        ensures { result ≡ is_all_acknowledged self }
    {
        match self {
            Stage::AllAcknowledged => true,
            _ => false,
        }
    }
}

impl Transfer {
    // Whether its last segment comes again after the acknowledge, and would be an abort.
    fn is_again_acknowledged(&self, side: Side, frame: &Frame) -> bool
        ensures { result ≡ is_again_acknowledged self.now side frame.now.bytes }
    {
        (self.stage.is_all_acknowledged() && self.is_sender(side))
            && (is_low_last(frame) && number_of(frame) as u16 + 1 == self.next_number as u16)
    }

    // It goes on with such a segment, as irregular.
    fn take_late(&mut self, what: What, micros: u64, side: Side, frame: &Frame)
        ensures { self.new ≡ after_late what micros side frame.now.bytes self.old }
    {
        self.irregular = true;
        self.note_frame(what, micros, side);
        self.note_newest(side, what, micros, frame);
    }
}

impl Channel {
    /// What the last segment of the open transfer is, where it comes again after its acknowledge.
    pub(crate) fn late_segment(&self, side: Side, frame: &Frame) -> Option<What>
        ensures { result ≡ late_segment self.now.transfer side frame.now.bytes }
    {
        match &self.transfer {
            Some(transfer) if transfer.is_again_acknowledged(side, frame) => {
                Some(What::LastAgain {
                    number: number_of(frame),
                })
            }
            _ => None,
        }
    }

    /// Such a segment.
    pub(crate) fn hear_late(&mut self, what: What, micros: u64, side: Side, frame: &Frame) -> Heard
        ensures says { result ≡ (late self.old what micros side frame.now.bytes).says }
        ensures next { self.new ≡ (late self.old what micros side frame.now.bytes).next }
    {
        let of = match &mut self.transfer {
            Some(transfer) => {
                transfer.take_late(what, micros, side, frame);
                Some(transfer.key)
            }
            None => None,
        };
        Heard {
            what,
            of,
            ended: None,
        }
    }
}
