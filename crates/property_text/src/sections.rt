// The property sets of the two summary streams.
ghost use Rattle.std.specs.Prelude.{◌<◌};

/// A property set of a file.
#[derive(Clone, Copy, PartialEq, Eq)]
pub(crate) enum Section {
    /// The set of `SummaryInformation`.
    Summary,
    /// The first set of `DocumentSummaryInformation`.
    Document,
    /// The second one: user-defined properties.
    User,
}

impl Section {
    /// The name of a set that is shown alone where the set is not in form.
    pub(crate) fn title(self) -> &'static str {
        match self {
            Section::Summary => "SummaryInformation",
            Section::Document => "DocumentSummaryInformation",
            Section::User => "UserDefinedProperties",
        }
    }

    /// What is before the names of its properties that the standard does not name.
    pub(crate) fn prefix(self) -> &'static str {
        match self {
            Section::Summary => "summary.",
            Section::Document => "document.",
            Section::User => "user.",
        }
    }

    /// The place of the set in its stream.
    pub(crate) fn place(self) -> usize
        ensures { result < 2 }
    {
        match self {
            Section::Summary => 0,
            Section::Document => 0,
            Section::User => 1,
        }
    }
}
