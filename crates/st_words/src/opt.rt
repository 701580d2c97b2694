//! The options, and the words that name them.

ghost use Rattle.std.specs.Prelude.{◌≡◌};
ghost use Rattle.st_words.specs.OptionWords as spec;
ghost use Rattle.st_words.specs.WordsMachine as machine;

/// An option of the words.
#[derive(Clone, Copy, Debug, PartialEq, Eq, Hash)]
pub enum Opt {
    /// `-setup`: the setup file
    Setup,
    /// `-from`: the source's system
    From,
    /// `-fromtype`: the source's type
    FromType,
    /// `-to`: the target's system
    To,
    /// `-totype`: the target's type
    ToType,
    /// `-format`: the picture
    Format,
    /// `-time`: the one line
    Time,
    /// `-batch`: lines from the input
    Batch,
    /// `-sample`: lines of the sample generator
    Sample,
    /// `-sc`: the clock's id
    Sc,
    /// `-back`: the way back
    Back,
}

const OPTIONS: [Opt; 11] = [
    Opt::Setup,
    Opt::From,
    Opt::FromType,
    Opt::To,
    Opt::ToType,
    Opt::Format,
    Opt::Time,
    Opt::Batch,
    Opt::Sample,
    Opt::Sc,
    Opt::Back,
];

impl Opt {
    /// The word that names the option, in lower case.
    pub fn word(self) -> &'static str
        ensures { result.now ≡ spec.word_of self }
    {
        match self {
            Opt::Setup => "-setup",
            Opt::From => "-from",
            Opt::FromType => "-fromtype",
            Opt::To => "-to",
            Opt::ToType => "-totype",
            Opt::Format => "-format",
            Opt::Time => "-time",
            Opt::Batch => "-batch",
            Opt::Sample => "-sample",
            Opt::Sc => "-sc",
            Opt::Back => "-back",
        }
    }
}

/// The option that a word names, in any letter case.
#[tactic(auto, unfolding(crate::specs::WordsMachine::option_of))]
pub fn option_of(word: &[u8]) -> Option<Opt>
    ensures { result ≡ machine.option_of word.now }
{
    OPTIONS
        .iter()
        .copied()
        .find(|opt| word.eq_ignore_ascii_case(opt.word().as_bytes()))
}

/// Whether a word names an option.
pub fn is_option(word: &[u8]) -> bool
    ensures { result ≡ machine.is_option word.now }
{
    option_of(word).is_some()
}
