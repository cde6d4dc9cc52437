ghost use Rattle.std.specs.Prelude.{◌≡◌};
ghost use Rattle.gv_base.specs.Refusal.{number_of, text_of, foreign_text};

/// A place in a file.
#[derive(Clone, Copy, Debug, PartialEq, Eq)]
pub struct Place {
    /// Which file, counted from 0 in the order of the words.
    pub file: u8,
    /// The line, counted from 1.
    pub line: u32,
    /// The column in characters, counted from 1.
    pub column: u32,
}

/// A word or a symbol of Groovy that the profile refuses.
#[derive(Clone, Copy, Debug, PartialEq, Eq)]
pub enum Foreign {
    /// `abstract`
    Abstract,
    /// `byte`
    Byte,
    /// `char`
    Char,
    /// `const`
    Const,
    /// `do`
    Do,
    /// `double`
    Double,
    /// `enum`
    Enum,
    /// `float`
    Float,
    /// `goto`
    Goto,
    /// `interface`
    Interface,
    /// `native`
    Native,
    /// `package`
    Package,
    /// `short`
    Short,
    /// `strictfp`
    Strictfp,
    /// `synchronized`
    Synchronized,
    /// `throws`
    Throws,
    /// `trait`
    Trait,
    /// `transient`
    Transient,
    /// `volatile`
    Volatile,
    /// `**`
    Power,
    /// `**=`
    PowerAssign,
    /// `~`
    Tilde,
    /// `=~`
    Find,
    /// `==~`
    Match,
    /// `===`
    Identical,
}

impl Foreign {
    /// What the error line says of it.
    fn text(self) -> &'static str
        ensures { result.now ≡ foreign_text self }
    {
        match self {
            Foreign::Abstract => "not in this profile: abstract",
            Foreign::Byte => "not in this profile: byte",
            Foreign::Char => "not in this profile: char",
            Foreign::Const => "not in this profile: const",
            Foreign::Do => "not in this profile: do",
            Foreign::Double => "not in this profile: double",
            Foreign::Enum => "not in this profile: enum",
            Foreign::Float => "not in this profile: float",
            Foreign::Goto => "not in this profile: goto",
            Foreign::Interface => "not in this profile: interface",
            Foreign::Native => "not in this profile: native",
            Foreign::Package => "not in this profile: package",
            Foreign::Short => "not in this profile: short",
            Foreign::Strictfp => "not in this profile: strictfp",
            Foreign::Synchronized => "not in this profile: synchronized",
            Foreign::Throws => "not in this profile: throws",
            Foreign::Trait => "not in this profile: trait",
            Foreign::Transient => "not in this profile: transient",
            Foreign::Volatile => "not in this profile: volatile",
            Foreign::Power => "not in this profile: **",
            Foreign::PowerAssign => "not in this profile: **=",
            Foreign::Tilde => "not in this profile: ~",
            Foreign::Find => "not in this profile: =~",
            Foreign::Match => "not in this profile: ==~",
            Foreign::Identical => "not in this profile: ===",
        }
    }
}

/// Why a file isn't run.
#[derive(Clone, Copy, Debug, PartialEq, Eq)]
pub enum RefusalKind {
    /// Bytes that aren't UTF-8.
    NotUtf8,
    /// A string without its closing quote.
    UnendedString,
    /// A comment without its `*/`.
    UnendedComment,
    /// A backslash that begins no escape.
    BadEscape,
    /// A number that isn't written as an integer.
    BadNumber,
    /// A literal that 64 bits don't hold, or that 32 don't and has the suffix `I`.
    LiteralPast64Bits,
    /// A character that begins no token.
    StrayCharacter,
    /// The start of a slashy string, or of a dollar slashy one.
    SlashyString,
    /// A `$` that begins no part of a string, or a `${` without its `}`.
    UnendedInterpolation,
    /// A token that goes on with no script, or the end of the file there.
    UnexpectedToken,
    /// A `/` or `/=` there.
    PlainDivision,
    /// A word or a symbol there that the profile refuses.
    NotInProfile(Foreign),
    /// A token inside too much that is open.
    NestedTooDeep,
    /// A name of a local, a field or a class that is declared already.
    NameDeclaredTwice,
    /// A class that isn't known, or isn't imported.
    UnknownClass,
    /// An import of anything that the profile doesn't have.
    ImportOutsideProfile,
    /// A statement in a file that isn't the first.
    LooseStatement,
    /// A method `getProperty` or `setProperty`.
    PropertyOverride,
    /// A class that is among its own superclasses.
    SuperclassCircle,
    /// A method of a name and of types that another one of its class has.
    MethodDeclaredTwice,
    /// An annotation at what it doesn't speak of.
    AnnotationOutOfPlace,
    /// A `break` or `continue` outside of what it leaves.
    NothingToLeave,
    /// A `this` or `super` where it means nothing.
    ThisOrSuperOutOfPlace,
    /// A script of a form that can't be run yet.
    NotBuilt,
}

impl RefusalKind {
    /// The number by which users know the kind.
    pub fn number(self) -> u8
        ensures { result ≡ number_of self }
    {
        match self {
            RefusalKind::NotUtf8 => 1,
            RefusalKind::UnendedString => 2,
            RefusalKind::UnendedComment => 3,
            RefusalKind::BadEscape => 4,
            RefusalKind::BadNumber => 5,
            RefusalKind::LiteralPast64Bits => 6,
            RefusalKind::StrayCharacter => 7,
            RefusalKind::SlashyString => 8,
            RefusalKind::UnendedInterpolation => 9,
            RefusalKind::UnexpectedToken => 10,
            RefusalKind::PlainDivision => 11,
            RefusalKind::NotInProfile(_) => 12,
            RefusalKind::NestedTooDeep => 13,
            RefusalKind::NameDeclaredTwice => 20,
            RefusalKind::UnknownClass => 21,
            RefusalKind::ImportOutsideProfile => 22,
            RefusalKind::LooseStatement => 23,
            RefusalKind::PropertyOverride => 24,
            RefusalKind::SuperclassCircle => 25,
            RefusalKind::MethodDeclaredTwice => 26,
            RefusalKind::AnnotationOutOfPlace => 27,
            RefusalKind::NothingToLeave => 28,
            RefusalKind::ThisOrSuperOutOfPlace => 29,
            RefusalKind::NotBuilt => 40,
        }
    }

    /// What the error line says of the kind.
    pub fn text(self) -> &'static str
        ensures { result.now ≡ text_of self }
    {
        match self {
            RefusalKind::NotUtf8 => "not UTF-8",
            RefusalKind::UnendedString => "string not ended",
            RefusalKind::UnendedComment => "comment not ended",
            RefusalKind::BadEscape => "bad escape",
            RefusalKind::BadNumber => "number outside this profile",
            RefusalKind::LiteralPast64Bits => "literal past 64 bits",
            RefusalKind::StrayCharacter => "stray character",
            RefusalKind::SlashyString => "slashy string",
            RefusalKind::UnendedInterpolation => "interpolation not ended",
            RefusalKind::UnexpectedToken => "unexpected token",
            RefusalKind::PlainDivision => "plain division",
            RefusalKind::NotInProfile(foreign) => foreign.text(),
            RefusalKind::NestedTooDeep => "nested too deep",
            RefusalKind::NameDeclaredTwice => "name declared twice",
            RefusalKind::UnknownClass => "unknown class",
            RefusalKind::ImportOutsideProfile => "import outside this profile",
            RefusalKind::LooseStatement => "loose statement",
            RefusalKind::PropertyOverride => "property override",
            RefusalKind::SuperclassCircle => "superclass circle",
            RefusalKind::MethodDeclaredTwice => "method declared twice",
            RefusalKind::AnnotationOutOfPlace => "annotation out of place",
            RefusalKind::NothingToLeave => "nothing to leave",
            RefusalKind::ThisOrSuperOutOfPlace => "this or super out of place",
            RefusalKind::NotBuilt => "not built yet",
        }
    }
}

/// A refusal of a file, and where it is.
#[derive(Clone, Copy, Debug, PartialEq, Eq)]
pub struct Refusal {
    pub kind: RefusalKind,
    pub place: Place,
}
