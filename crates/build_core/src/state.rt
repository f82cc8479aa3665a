//! How far builds have come.
ghost use Rattle.std.specs.Prelude.{◌≡◌, ◌↔◌, IsTrue};
ghost use Rattle.build_core.specs.BuildColumns.{state_code, state_of};
ghost use Rattle.build_core.specs.Builds.{is_in_production, is_open, may_prepare, may_start};

/// How far a build has come. The first three are open.
#[derive(Clone, Copy, Debug, PartialEq, Eq)]
pub enum BuildState {
    /// It is written down, and its items may be allocated.
    Pending,
    /// It is being built.
    Production,
    /// Work on it rests.
    OnHold,
    /// It was given up.
    Cancelled,
    /// All of it is built.
    Complete,
}

impl BuildState {
    /// Whether it is neither given up nor done.
    pub fn is_open(self) -> bool
        ensures { result ≡ is_open self }
    {
        matches!(
            self,
            BuildState::Pending | BuildState::Production | BuildState::OnHold
        )
    }

    /// Whether it is being built.
    pub fn is_in_production(self) -> bool
        ensures { result ≡ is_in_production self }
    {
        matches!(self, BuildState::Production)
    }

    /// Whether work on it may begin, or go on.
    pub fn may_start(self) -> bool
        ensures { result ≡ may_start self }
    {
        matches!(self, BuildState::Pending | BuildState::OnHold)
    }

    /// Whether work on it may be held, and items allocated for it.
    pub fn may_prepare(self) -> bool
        ensures { result ≡ may_prepare self }
    {
        matches!(self, BuildState::Pending | BuildState::Production)
    }

    /// The state's number, as a file has it.
    pub fn code(self) -> u64
        ensures { result ≡ state_code self }
    {
        match self {
            BuildState::Pending => 0,
            BuildState::Production => 1,
            BuildState::OnHold => 2,
            BuildState::Cancelled => 3,
            BuildState::Complete => 4,
        }
    }

    /// The state of that number, none where there is none.
    pub fn from_code(code: u64) -> Option<BuildState>
        ensures { result ≡ state_of code }
    {
        match code {
            0 => Some(BuildState::Pending),
            1 => Some(BuildState::Production),
            2 => Some(BuildState::OnHold),
            3 => Some(BuildState::Cancelled),
            4 => Some(BuildState::Complete),
            _ => None,
        }
    }

    /// Whether the states are the same.
    pub fn equals(self, other: BuildState) -> bool
        ensures { IsTrue result ↔ (self ≡ other) }
    {
        self == other
    }
}
