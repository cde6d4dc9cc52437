ghost use Rattle.std.specs.Prelude.{◌≡◌, IfOk, OnOk};
ghost use Rattle.gv_tops.specs.Known.{AreKnown, texts, with_names};

use gv_base::{Name, Names, OutOfMemory};

/// The names that these rules speak of.
#[derive(Clone, Copy, Debug, PartialEq, Eq)]
pub struct Known {
    /// `groovy`
    pub groovy: Name,
    /// `transform`
    pub transform: Name,
    /// `lang`
    pub lang: Name,
    /// `ToString`
    pub to_string: Name,
    /// `EqualsAndHashCode`
    pub equals_and_hash_code: Name,
    /// `TupleConstructor`
    pub tuple_constructor: Name,
    /// `Field`
    pub field: Name,
    /// `Delegate`
    pub delegate: Name,
    /// `Singleton`
    pub singleton: Name,
    /// `Lazy`
    pub lazy: Name,
    /// `getProperty`
    pub get_property: Name,
    /// `setProperty`
    pub set_property: Name,
}

impl Known {
    /// The names of these words, which the table has from then on.
    pub fn new(names: &mut Names) -> Result<Known, OutOfMemory>
        ensures known { IfOk result (λ known. AreKnown names.new known) }
        ensures names { OnOk result (names.new ≡ with_names names.old texts) }
    {
        let groovy = names.intern("groovy")?;
        let transform = names.intern("transform")?;
        let lang = names.intern("lang")?;
        let to_string = names.intern("ToString")?;
        let equals_and_hash_code = names.intern("EqualsAndHashCode")?;
        let tuple_constructor = names.intern("TupleConstructor")?;
        let field = names.intern("Field")?;
        let delegate = names.intern("Delegate")?;
        let singleton = names.intern("Singleton")?;
        let lazy = names.intern("Lazy")?;
        let get_property = names.intern("getProperty")?;
        let set_property = names.intern("setProperty")?;
        Ok(Known {
            groovy,
            transform,
            lang,
            to_string,
            equals_and_hash_code,
            tuple_constructor,
            field,
            delegate,
            singleton,
            lazy,
            get_property,
            set_property,
        })
    }
}
