// The thirteen relations.
ghost use Rattle.std.specs.Prelude.{◌≡◌};
ghost use Rattle.crm_allen.specs.Names as spec;

/// How two intervals stand to each other (J. F. Allen, "Maintaining knowledge about temporal intervals", 1983): the
/// first is before the second, meets it, overlaps it, is finished by it, contains it, starts it or is equal to it, or
/// one of the converses, in which the second stands so to the first.
#[derive(Clone, Copy, Debug, PartialEq, Eq)]
pub enum Allen {
    Before,
    Meets,
    Overlaps,
    Finished,
    Contains,
    Starts,
    Equal,
    Started,
    During,
    Finishes,
    Overlapped,
    Met,
    After,
}

/// All relations, from the earliest end of the first interval to its latest start.
pub fn all_relations() -> [Allen; 13]
    ensures { result ≡ spec.all_relations }
{
    [
        Allen::Before,
        Allen::Meets,
        Allen::Overlaps,
        Allen::Finished,
        Allen::Contains,
        Allen::Starts,
        Allen::Equal,
        Allen::Started,
        Allen::During,
        Allen::Finishes,
        Allen::Overlapped,
        Allen::Met,
        Allen::After,
    ]
}

impl Allen {
    /// Its name, in lower case.
    pub fn name(self) -> &'static str
        ensures { result.now ≡ spec.relation_name self }
    {
        match self {
            Allen::Before => "before",
            Allen::Meets => "meets",
            Allen::Overlaps => "overlaps",
            Allen::Finished => "finished",
            Allen::Contains => "contains",
            Allen::Starts => "starts",
            Allen::Equal => "equal",
            Allen::Started => "started",
            Allen::During => "during",
            Allen::Finishes => "finishes",
            Allen::Overlapped => "overlapped",
            Allen::Met => "met",
            Allen::After => "after",
        }
    }
}
