//! The names of the members of objects in JSON and in SARIF.

ghost use Rattle.std.specs.Prelude.{◌≡◌};
ghost use Rattle.conode_lint_text.specs.Members.{member_name};

/// A member of an object.
#[derive(Clone, Copy)]
pub(crate) enum Member {
    Line,
    Column,
    Severity,
    Name,
    Meaning,
    Text,
    Fix,
    Subject,
    File,
    Read,
    Errors,
    Warnings,
    More,
    Findings,
    Version,
    Files,
    Id,
    ShortDescription,
    Help,
    DefaultConfiguration,
    Level,
    Region,
    StartLine,
    StartColumn,
    Snippet,
    RuleId,
    Message,
    Locations,
    PhysicalLocation,
    ArtifactLocation,
    Uri,
    Schema,
    Runs,
    Tool,
    Driver,
    Rules,
    ColumnKind,
    Results,
    ContextRegion,
    Properties,
    Invocations,
    ExecutionSuccessful,
    ToolExecutionNotifications,
}

/// Their names, in this order.
const NAMES: [&str; 43] = [
    "line",
    "column",
    "severity",
    "name",
    "meaning",
    "text",
    "fix",
    "subject",
    "file",
    "read",
    "errors",
    "warnings",
    "more",
    "findings",
    "version",
    "files",
    "id",
    "shortDescription",
    "help",
    "defaultConfiguration",
    "level",
    "region",
    "startLine",
    "startColumn",
    "snippet",
    "ruleId",
    "message",
    "locations",
    "physicalLocation",
    "artifactLocation",
    "uri",
    "$schema",
    "runs",
    "tool",
    "driver",
    "rules",
    "columnKind",
    "results",
    "contextRegion",
    "properties",
    "invocations",
    "executionSuccessful",
    "toolExecutionNotifications",
];

impl Member {
    /// Its name.
    pub(crate) fn name(self) -> &'static str
        ensures { result.now ≡ member_name self }
    {
        NAMES[self as usize]
    }
}
