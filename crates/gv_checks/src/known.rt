ghost use Rattle.std.specs.Prelude.{◌≡◌, IfOk, OnOk};
ghost use Rattle.gv_checks.specs.Checks.{AreKnown, with_known, words_of};

use gv_base::{Name, Names, OutOfMemory};
use gv_events::Words;

/// The names that the rules speak of.
#[derive(Clone, Copy, Debug, PartialEq, Eq)]
pub struct Known {
    /// `it`
    pub it: Name,
    pub tops: gv_tops::Known,
    pub declare: gv_declare::Known,
}

impl Known {
    /// The names of these words, which the table has from then on.
    pub fn new(names: &mut Names) -> Result<Known, OutOfMemory>
        ensures known { IfOk result (λ known. AreKnown names.old known) }
        ensures names { OnOk result (names.new ≡ with_known names.old) }
    {
        let it = names.intern("it")?;
        let tops = gv_tops::Known::new(names)?;
        let declare = gv_declare::Known::new(names)?;
        Ok(Known { it, tops, declare })
    }

    /// Those by which events are told.
    pub fn words(self) -> Words
        ensures { result ≡ words_of self }
    {
        Words {
            it: self.it,
            field: self.tops.field,
            groovy: self.tops.groovy,
            transform: self.tops.transform,
        }
    }
}
