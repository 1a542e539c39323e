ghost use Rattle.std.specs.Prelude.{◌≡◌, Some, is_some};
ghost use Rattle.program_meaning.specs.CommandWords.{name_of, greatest_of, given, with_value};
ghost use Rattle.program_meaning.specs.OptionIds.{id_of};

/// An option of the command line.
#[derive(Clone, Copy, Debug, PartialEq, Eq)]
pub enum Choice {
    Nodes,
    Workers,
    Generate,
}

/// The language of the script.
#[derive(Clone, Copy, Debug, PartialEq, Eq)]
pub enum Language {
    Redlog,
    SmtLib,
}

/// The values of the options, where they are given, and the language of the script.
#[derive(Clone, Copy, Debug, PartialEq, Eq)]
pub struct Options {
    pub nodes: Option<u32>,
    pub workers: Option<u32>,
    pub generate: Option<u32>,
    pub language: Language,
}

impl Choice {
    /// The word that begins the option.
    pub fn name(self) -> &'static str
        ensures { result.now ≡ name_of self }
    {
        match self {
            Choice::Nodes => "--nodes",
            Choice::Workers => "--workers",
            Choice::Generate => "--generate",
        }
    }

    /// The name of the option, without the hyphens before it.
    pub fn id(self) -> &'static str
        ensures { result.now ≡ id_of self }
    {
        match self {
            Choice::Nodes => "nodes",
            Choice::Workers => "workers",
            Choice::Generate => "generate",
        }
    }

    /// The greatest value of the option. The least is 1.
    pub fn greatest(self) -> u32
        ensures { result ≡ greatest_of self }
    {
        match self {
            Choice::Nodes => 4_000_000,
            Choice::Workers => 64,
            Choice::Generate => 100_000,
        }
    }
}

impl Options {
    /// Whether the option has a value.
    pub fn has(&self, choice: Choice) -> bool
        ensures { result ≡ is_some (given choice self.now) }
    {
        match choice {
            Choice::Nodes => self.nodes.is_some(),
            Choice::Workers => self.workers.is_some(),
            Choice::Generate => self.generate.is_some(),
        }
    }

    /// These options, and this value of one.
    pub fn with(self, choice: Choice, value: u32) -> Options
        ensures { result ≡ with_value choice value self }
    {
        let value = Some(value);
        match choice {
            Choice::Nodes => Options {
                nodes: value,
                ..self
            },
            Choice::Workers => Options {
                workers: value,
                ..self
            },
            Choice::Generate => Options {
                generate: value,
                ..self
            },
        }
    }
}
