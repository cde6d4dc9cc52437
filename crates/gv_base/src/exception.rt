ghost use Rattle.std.specs.Prelude.{◌≡◌};
ghost use Rattle.gv_base.specs.Exceptions.{name_of};

/// A built-in exception class.
#[derive(Clone, Copy, Debug, PartialEq, Eq)]
pub enum ExceptionKind {
    Throwable,
    Exception,
    Error,
    AssertionError,
    RuntimeException,
    NullPointerException,
    IllegalArgumentException,
    NumberFormatException,
    IllegalStateException,
    IndexOutOfBoundsException,
    StringIndexOutOfBoundsException,
    ArithmeticException,
    NoSuchElementException,
    UnsupportedOperationException,
    ClassCastException,
    GroovyCastException,
    GroovyRuntimeException,
    MissingMethodException,
    MissingPropertyException,
    ReadOnlyPropertyException,
}

impl ExceptionKind {
    /// The class's name.
    pub fn name(self) -> &'static str
        ensures { result.now ≡ name_of self }
    {
        match self {
            ExceptionKind::Throwable => "Throwable",
            ExceptionKind::Exception => "Exception",
            ExceptionKind::Error => "Error",
            ExceptionKind::AssertionError => "AssertionError",
            ExceptionKind::RuntimeException => "RuntimeException",
            ExceptionKind::NullPointerException => "NullPointerException",
            ExceptionKind::IllegalArgumentException => "IllegalArgumentException",
            ExceptionKind::NumberFormatException => "NumberFormatException",
            ExceptionKind::IllegalStateException => "IllegalStateException",
            ExceptionKind::IndexOutOfBoundsException => "IndexOutOfBoundsException",
            ExceptionKind::StringIndexOutOfBoundsException => "StringIndexOutOfBoundsException",
            ExceptionKind::ArithmeticException => "ArithmeticException",
            ExceptionKind::NoSuchElementException => "NoSuchElementException",
            ExceptionKind::UnsupportedOperationException => "UnsupportedOperationException",
            ExceptionKind::ClassCastException => "ClassCastException",
            ExceptionKind::GroovyCastException => "GroovyCastException",
            ExceptionKind::GroovyRuntimeException => "GroovyRuntimeException",
            ExceptionKind::MissingMethodException => "MissingMethodException",
            ExceptionKind::MissingPropertyException => "MissingPropertyException",
            ExceptionKind::ReadOnlyPropertyException => "ReadOnlyPropertyException",
        }
    }
}
