ghost use Rattle.std.specs.Prelude.{◌≡◌};
ghost use Rattle.team_files.specs.Kinds.{kind_named, kind_text};

/// The kind of a draw: those that are built. A head of another kind that is known by name is
/// refused with `KindNotBuilt`.
#[derive(Clone, Copy, Debug, PartialEq, Eq)]
pub enum Kind {
    Group,
    Pairing,
}

impl Kind {
    /// The kind with the name. `None` exactly where no kind that is built has it.
    pub(crate) fn with_name(text: &str) -> Option<Kind>
        ensures { result ≡ kind_named text.now }
    {
        if text == Kind::Group.text() {
            return Some(Kind::Group);
        }
        if text == Kind::Pairing.text() {
            return Some(Kind::Pairing);
        }
        None
    }

    /// The kind's name as it stands in a head.
    pub fn text(self) -> &'static str
        ensures { result.now ≡ kind_text self }
    {
        match self {
            Kind::Group => "group",
            Kind::Pairing => "pairing",
        }
    }
}
