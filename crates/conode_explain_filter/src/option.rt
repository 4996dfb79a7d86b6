//! The options of a filter.

ghost use Rattle.std.specs.Prelude.{◌≡◌};
ghost use Rattle.conode_explain_filter.specs.Conditions.{is_time};

/// An option of a filter.
#[derive(Clone, Copy)]
pub enum FilterOption {
    /// `--of`
    Of,
    /// `--id`
    Id,
    /// `--kind`
    Kind,
    /// `--from`
    From,
    /// `--to`
    To,
}

impl FilterOption {
    // Whether it has a time, which is one word.
    pub(crate) fn is_time(self) -> bool
        ensures { result ≡ is_time self }
    {
        match self {
            FilterOption::From | FilterOption::To => true,
            _ => false,
        }
    }

    /// As it is written.
    pub fn name(self) -> &'static str {
        match self {
            FilterOption::Of => "--of",
            FilterOption::Id => "--id",
            FilterOption::Kind => "--kind",
            FilterOption::From => "--from",
            FilterOption::To => "--to",
        }
    }

    /// What a word of it has to be.
    pub fn wanted(self) -> &'static str {
        match self {
            FilterOption::Of => "a node-ID from 1 to 127",
            FilterOption::Id => "an identifier, as 185, or two with a hyphen, as 180-1FF",
            FilterOption::Kind => "one of sdo, pdo, emcy, nmt, heartbeat, sync, other",
            FilterOption::From | FilterOption::To => {
                "a time in seconds, as 12.5, or a stamp of the recording, as @1700000000.25"
            }
        }
    }
}
