//! What was asked for, while the words are read.

ghost use Rattle.std.specs.Prelude.{◌≡◌, ◌≤◌};
ghost use Rattle.gv_words.specs.Words.{is_set, limits_of, most, nothing, with_limit};

use gv_base::Limits;

/// A limit that an option sets.
#[derive(Clone, Copy, Debug, PartialEq, Eq)]
pub enum Limit {
    /// The most ticks.
    Ticks,
    /// The most cells.
    Cells,
    /// The most depth.
    Depth,
}

/// The limits that no option sets.
pub const DEFAULTS: Limits = Limits {
    ticks: 100_000_000,
    cells: 16_000_000,
    depth: 4_000,
};

/// What the words so far have asked for.
#[derive(Clone, Copy)]
pub struct Asked {
    pub ticks: Option<u64>,
    pub cells: Option<u64>,
    pub depth: Option<u32>,
    /// The place of the file among the words.
    pub file: Option<usize>,
    /// The option whose value is the next word.
    pub waits: Option<Limit>,
    /// Whether all words that follow are files.
    pub only_files: bool,
}

impl Asked {
    /// What no words ask for.
    pub fn nothing() -> Asked
        ensures { result ≡ nothing }
    {
        Asked {
            ticks: None,
            cells: None,
            depth: None,
            file: None,
            waits: None,
            only_files: false,
        }
    }

    /// Whether the limit is set.
    pub fn is_set(self, limit: Limit) -> bool
        ensures { result ≡ is_set limit self }
    {
        match limit {
            Limit::Ticks => self.ticks.is_some(),
            Limit::Cells => self.cells.is_some(),
            Limit::Depth => self.depth.is_some(),
        }
    }

    /// The same with a limit set.
    pub fn with_limit(self, limit: Limit, number: u64) -> Asked
        requires { number ≤ most limit }
        ensures { result ≡ with_limit limit number self }
    {
        match limit {
            Limit::Ticks => Asked {
                ticks: Some(number),
                ..self
            },
            Limit::Cells => Asked {
                cells: Some(number),
                ..self
            },
            Limit::Depth => Asked {
                depth: Some(number as u32),
                ..self
            },
        }
    }

    /// The limits, with the default of each that isn't set.
    pub fn limits(self) -> Limits
        ensures { result ≡ limits_of self }
    {
        Limits {
            ticks: self.ticks.unwrap_or(DEFAULTS.ticks),
            cells: self.cells.unwrap_or(DEFAULTS.cells),
            depth: self.depth.unwrap_or(DEFAULTS.depth),
        }
    }
}
