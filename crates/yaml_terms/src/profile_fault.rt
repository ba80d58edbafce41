//! The faults of the refusal table.

ghost use Rattle.std.specs.Prelude.{◌≡◌};
ghost use Rattle.yaml_terms.specs.FaultOrder.{earlier as earlier_def};

/// Why a line has no place after the lines before it. A line that has several faults is named by
/// the first.
#[derive(Clone, Copy, Debug, PartialEq, Eq, Drop)]
pub enum ProfileFault {
    /// A character below U+0020 other than a tab, or U+007F; a CR is one unless an LF follows it.
    Control,
    /// A tab before the first character that is no blank, or after a dash.
    Tab,
    /// A construct of YAML that this profile leaves out.
    LeftOut,
    /// An indentation at which nothing open can go on and nothing can begin.
    Indent,
    /// A quoted scalar without its end, or something other than a comment after it.
    Quote,
    /// An escape other than the four.
    Escape,
    /// A one-line list of another form, or a beginning with a comma or a closing bracket.
    FlowForm,
    /// No entry or item where one is required, a colon before a blank in a value, or no form at
    /// all.
    Colon,
    /// A key that its map has already.
    DuplicateKey,
    /// A map or list at a depth above the limit.
    TooDeep,
}

impl ProfileFault {
    ghost use Rattle.std.specs.Prelude.{◌≡◌};
    ghost use Rattle.yaml_terms.specs.FaultOrder.{place};
    ghost use Rattle.yaml_terms.specs.Words.{word};

    /// Its word, by which a refusal names it.
    pub fn word(self) -> &'static str
        ensures { result.now ≡ word self }
    {
        match self {
            ProfileFault::Control => "control",
            ProfileFault::Tab => "tab",
            ProfileFault::LeftOut => "left_out",
            ProfileFault::Indent => "indent",
            ProfileFault::Quote => "quote",
            ProfileFault::Escape => "escape",
            ProfileFault::FlowForm => "flow_form",
            ProfileFault::Colon => "colon",
            ProfileFault::DuplicateKey => "duplicate_key",
            ProfileFault::TooDeep => "too_deep",
        }
    }

    /// The fault's place in the table.
    pub fn place(self) -> u8
        ensures { result ≡ place self }
    {
        match self {
            ProfileFault::Control => 0,
            ProfileFault::Tab => 1,
            ProfileFault::LeftOut => 2,
            ProfileFault::Indent => 3,
            ProfileFault::Quote => 4,
            ProfileFault::Escape => 5,
            ProfileFault::FlowForm => 6,
            ProfileFault::Colon => 7,
            ProfileFault::DuplicateKey => 8,
            ProfileFault::TooDeep => 9,
        }
    }
}

/// The earlier of two faults, each perhaps not there.
pub fn earlier(one: Option<ProfileFault>, other: Option<ProfileFault>) -> Option<ProfileFault>
    ensures { result ≡ earlier_def one other }
{
    match one {
        None => other,
        Some(fault) => match other {
            None => Some(fault),
            Some(next) => {
                if fault.place() <= next.place() {
                    Some(fault)
                } else {
                    Some(next)
                }
            }
        },
    }
}
