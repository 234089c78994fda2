// Names of constructs: what a refusal, or a run that leaves the subset, gives as its reason.
ghost use Rattle.std.specs.Prelude.{◌≡◌, Some, chars};
ghost use Rattle.pyn_base.specs.Construct.{text_of};

use std::fmt;

/// A construct outside the supported subset, or a form that a file lacks: the reason of a refusal, or of a run that leaves
/// the subset. It shows itself as its name.
#[derive(Clone, Copy, Debug, PartialEq, Eq)]
pub enum Construct {
    // Faults of the text's characters and tokens.
    Encoding,
    Tab,
    String,
    Escape,
    StringPrefix,
    Number,
    IntegerRange,
    Bracket,
    Nesting,
    Backslash,
    Character,
    // Lines that the grammar does not read.
    Indent,
    NestedDef,
    NestedClass,
    Lambda,
    Async,
    Await,
    Yield,
    Global,
    Nonlocal,
    Import,
    From,
    With,
    Comprehension,
    Walrus,
    AtSign,
    Division,
    Power,
    BitOperator,
    Ellipsis,
    Syntax,
    // Modules that are read and not accepted.
    TooManyFunctions,
    ModuleState,
    ModuleStatement,
    ClassStatement,
    DuplicateName,
    SpecialMethod,
    SpecialName,
    PrivateName,
    UnknownBase,
    BaseChain,
    Parameters,
    MutableDefault,
    Default,
    Annotation,
    ClassScope,
    TypingName,
    BreakOutsideLoop,
    BareRaise,
    ExceptionName,
    Super,
    Arguments,
    UnknownName,
    // Places where a run leaves the supported subset.
    BuiltinValue,
    CallDepth,
    KeywordArgument,
    MethodValue,
    ExceptionAttribute,
    FunctionAttribute,
    ClassAttribute,
    View,
    SuperOfAClass,
    ExceptionText,
    DictChanged,
    TupleDepth,
    MachineSize,
    StringFormat,
    Identity,
    SubscriptOfAClass,
    ComparisonDepth,
    UnhashableKey,
    Argument,
    StrOf,
    NonAsciiText,
    Method,
    // Suite files, reports and sizes of files.
    Header,
    TestName,
    Form,
    TooLong,
    Report,
}

impl Construct {
    /// The construct's name, as messages and reports have it.
    pub fn text(self) -> &'static str
        ensures bytes { result.now ≡ text_of self }
        ensures chars { chars result.now ≡ text_of self }
    {
        self.name()
    }

    fn name(self) -> &'static str
        ensures { result.now ≡ text_of self }
    {
        match self {
            Construct::Encoding => "encoding",
            Construct::Tab => "tab",
            Construct::String => "string",
            Construct::Escape => "escape",
            Construct::StringPrefix => "string prefix",
            Construct::Number => "number",
            Construct::IntegerRange => "integer range",
            Construct::Bracket => "bracket",
            Construct::Nesting => "nesting",
            Construct::Backslash => "backslash",
            Construct::Character => "character",
            Construct::Indent => "indent",
            Construct::NestedDef => "nested def",
            Construct::NestedClass => "nested class",
            Construct::Lambda => "lambda",
            Construct::Async => "async",
            Construct::Await => "await",
            Construct::Yield => "yield",
            Construct::Global => "global",
            Construct::Nonlocal => "nonlocal",
            Construct::Import => "import",
            Construct::From => "from",
            Construct::With => "with",
            Construct::Comprehension => "comprehension",
            Construct::Walrus => "walrus",
            Construct::AtSign => "at sign",
            Construct::Division => "division",
            Construct::Power => "power",
            Construct::BitOperator => "bit operator",
            Construct::Ellipsis => "ellipsis",
            Construct::Syntax => "syntax",
            Construct::TooManyFunctions => "too many functions",
            Construct::ModuleState => "module state",
            Construct::ModuleStatement => "module statement",
            Construct::ClassStatement => "class statement",
            Construct::DuplicateName => "duplicate name",
            Construct::SpecialMethod => "special method",
            Construct::SpecialName => "special name",
            Construct::PrivateName => "private name",
            Construct::UnknownBase => "unknown base",
            Construct::BaseChain => "base chain",
            Construct::Parameters => "parameters",
            Construct::MutableDefault => "mutable default",
            Construct::Default => "default",
            Construct::Annotation => "annotation",
            Construct::ClassScope => "class scope",
            Construct::TypingName => "typing name",
            Construct::BreakOutsideLoop => "break outside loop",
            Construct::BareRaise => "bare raise",
            Construct::ExceptionName => "exception name",
            Construct::Super => "super",
            Construct::Arguments => "arguments",
            Construct::UnknownName => "unknown name",
            Construct::BuiltinValue => "builtin value",
            Construct::CallDepth => "call depth",
            Construct::KeywordArgument => "keyword argument",
            Construct::MethodValue => "method value",
            Construct::ExceptionAttribute => "exception attribute",
            Construct::FunctionAttribute => "function attribute",
            Construct::ClassAttribute => "class attribute",
            Construct::View => "view",
            Construct::SuperOfAClass => "super of a class",
            Construct::ExceptionText => "exception text",
            Construct::DictChanged => "dict changed",
            Construct::TupleDepth => "tuple depth",
            Construct::MachineSize => "machine size",
            Construct::StringFormat => "string format",
            Construct::Identity => "identity",
            Construct::SubscriptOfAClass => "subscript of a class",
            Construct::ComparisonDepth => "comparison depth",
            Construct::UnhashableKey => "unhashable key",
            Construct::Argument => "argument",
            Construct::StrOf => "str of",
            Construct::NonAsciiText => "non-ASCII text",
            Construct::Method => "method",
            Construct::Header => "header",
            Construct::TestName => "test name",
            Construct::Form => "form",
            Construct::TooLong => "too long",
            Construct::Report => "report",
        }
    }
}

impl fmt::Display for Construct {
    ghost output = { λ c. Some (text_of c) };

    fn fmt<W: fmt::Write>(&self, f: &mut fmt::Formatter<W>) -> fmt::Result {
        f.write_str(self.text())
    }
}
