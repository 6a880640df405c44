//! The kinds of calls that are measured.

/// Calls of one kind.
#[derive(Clone, Copy, Debug, PartialEq, Eq)]
pub enum Phase {
    /// All classes are defined, one after another.
    Fill,
    /// All groups are handed out.
    Seal,
    /// Each class is looked for.
    FindHit,
    /// Classes that aren't there are looked for.
    FindMiss,
    /// Some more classes are defined in the loaders.
    Define,
    /// New loaders are added.
    AddLoader,
    /// Each new loader gets a few classes.
    DefineFew,
    /// The new loaders are unloaded.
    Unload,
    /// The cache learns that each of these unloads is durable.
    Learn,
    /// The first of the old loaders are unloaded.
    UnloadFirst,
    /// The cache learns that each of these unloads is durable.
    LearnFirst,
}

/// How many classes a new loader gets.
pub const FEW: usize = 3;

impl Phase {
    /// All phases, in the order in which they are run.
    pub const ALL: [Phase; 11] = [
        Phase::Fill,
        Phase::Seal,
        Phase::FindHit,
        Phase::FindMiss,
        Phase::Define,
        Phase::AddLoader,
        Phase::DefineFew,
        Phase::Unload,
        Phase::Learn,
        Phase::UnloadFirst,
        Phase::LearnFirst,
    ];

    /// Its name in the output.
    pub fn name(self) -> &'static str {
        match self {
            Phase::Fill => "define from none",
            Phase::Seal => "seal",
            Phase::FindHit => "find what is there",
            Phase::FindMiss => "find what isn't there",
            Phase::Define => "define",
            Phase::AddLoader => "new loader",
            Phase::DefineFew => "define in a new loader",
            Phase::Unload => "unload a new loader",
            Phase::Learn => "learn that a new one went",
            Phase::UnloadFirst => "unload an old loader",
            Phase::LearnFirst => "learn that an old one went",
        }
    }
}

/// The results of calls.
#[derive(Clone, Copy, Debug, PartialEq, Eq)]
pub struct Tally {
    pub calls: usize,
    /// How many of them did or found what they should.
    pub done: usize,
}

impl Tally {
    /// No calls yet.
    pub fn new() -> Tally {
        Tally { calls: 0, done: 0 }
    }

    pub fn add(&mut self, done: bool) {
        self.calls = self.calls.wrapping_add(1);
        self.done = self.done.wrapping_add(usize::from(done));
    }
}
