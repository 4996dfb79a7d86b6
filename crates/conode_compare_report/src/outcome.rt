//! How a comparison ended.

ghost use Rattle.std.specs.Prelude.{◌≡◌};
ghost use Rattle.conode_compare_report.specs.Abouts.{about_view};
ghost use Rattle.conode_compare_report.specs.Outcomes.{outcome_name, outcome_of};

use crate::about::About;

/// How a comparison ended.
#[derive(Clone, Copy)]
pub enum Outcome {
    NoDifference,
    Differences,
    /// Nothing was compared: no frame of the device came.
    NoFrame,
    /// Frames of several interfaces came, and none was named.
    SeveralInterfaces,
}

impl Outcome {
    /// How a comparison ended.
    pub fn of(about: &About<'_, '_>) -> Outcome
        ensures { result ≡ outcome_of (about_view about.now) }
    {
        let tally = about.tally;
        if about.several {
            Outcome::SeveralInterfaces
        } else if tally.different > 0 {
            Outcome::Differences
        } else if tally.prescribed == 0 && tally.unjudged == 0 {
            Outcome::NoFrame
        } else {
            Outcome::NoDifference
        }
    }

    /// Its name.
    pub fn name(self) -> &'static str
        ensures { result.now ≡ outcome_name self }
    {
        match self {
            Outcome::NoDifference => "no difference",
            Outcome::Differences => "differences",
            Outcome::NoFrame | Outcome::SeveralInterfaces => "not compared",
        }
    }
}
