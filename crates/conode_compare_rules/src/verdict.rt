//! What is found at a frame, and its verdict.

ghost use Rattle.std.specs.Prelude.{◌≡◌};
ghost use Rattle.conode_compare_rules.specs.Verdicts.{found, is_found, nothing_found, verdict_of};

use conode_compare_nmt::Finding;

/// What is said of a frame of the device.
#[derive(Clone, Copy)]
pub enum Verdict {
    /// It is as CiA 301 prescribes, as far as it is judged.
    Prescribed,
    /// There is a difference.
    Different,
    /// What it rests on is unknown, or it is left out.
    Unjudged,
}

/// What is found at a frame: at most one difference of each cause.
#[derive(Clone, Copy)]
pub struct Findings {
    /// A boot-up is missing.
    pub boot: Option<Finding>,
    /// A heartbeat is late.
    pub heartbeat: Option<Finding>,
    /// An answer is missing.
    pub answer: Option<Finding>,
    /// The frame itself differs.
    pub frame: Option<Finding>,
    /// What is said of the frame, if it is one of the device.
    pub verdict: Option<Verdict>,
}

#[tactic(auto, unfolding(crate::specs::Verdicts::found))]
fn verdict_of(found: bool, judged: bool) -> Verdict
    ensures { result ≡ verdict_of found judged }
{
    if found {
        Verdict::Different
    } else if judged {
        Verdict::Prescribed
    } else {
        Verdict::Unjudged
    }
}

impl Findings {
    /// Those of a frame that isn't one of the device.
    pub(crate) fn none() -> Findings
        ensures { result ≡ nothing_found }
    {
        Findings {
            boot: None,
            heartbeat: None,
            answer: None,
            frame: None,
            verdict: None,
        }
    }

    /// Those of a frame of the device.
    #[tactic(auto, unfolding(crate::specs::Verdicts::found))]
    pub(crate) fn of(
        boot: Option<Finding>,
        heartbeat: Option<Finding>,
        answer: Option<Finding>,
        frame: Option<Finding>,
        judged: bool,
    ) -> Findings
        ensures { result ≡ found boot heartbeat answer frame judged }
    {
        let is_found = boot.is_some() || heartbeat.is_some() || answer.is_some() || frame.is_some();
        Findings {
            boot,
            heartbeat,
            answer,
            frame,
            verdict: Some(verdict_of(is_found, judged)),
        }
    }
}
