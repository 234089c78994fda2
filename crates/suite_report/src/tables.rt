// The tables of words.
ghost use Rattle.std.specs.Prelude.{◌≡◌, find, bytes_eq};
ghost use Rattle.pyn_base.specs.Construct.{text_of};
ghost use Rattle.report_model.specs.Fields.{named};
ghost use Rattle.report_model.specs.Lines.{kind_text, operator_text};
ghost use Rattle.report_model.specs.Tables.{kinds, operators, constructs};
ghost use Rattle.suite_report.specs.Gives.{Gives};

use crate::fault::Fault;
use crate::fields::is;
use pyn_base::Construct;
use report_model::{Operator, ShownKind};

const KINDS: [ShownKind; 4] = [
    ShownKind::Entry,
    ShownKind::True,
    ShownKind::False,
    ShownKind::Reached,
];

const OPERATORS: [Operator; 10] = [
    Operator::Aod,
    Operator::Aor,
    Operator::Asr,
    Operator::Bcr,
    Operator::Coi,
    Operator::Crp,
    Operator::Ehd,
    Operator::Exs,
    Operator::Lcr,
    Operator::Ror,
];

/// Every construct.
const CONSTRUCTS: [Construct; 80] = [
    Construct::Encoding,
    Construct::Tab,
    Construct::String,
    Construct::Escape,
    Construct::StringPrefix,
    Construct::Number,
    Construct::IntegerRange,
    Construct::Bracket,
    Construct::Nesting,
    Construct::Backslash,
    Construct::Character,
    Construct::Indent,
    Construct::NestedDef,
    Construct::NestedClass,
    Construct::Lambda,
    Construct::Async,
    Construct::Await,
    Construct::Yield,
    Construct::Global,
    Construct::Nonlocal,
    Construct::Import,
    Construct::From,
    Construct::With,
    Construct::Comprehension,
    Construct::Walrus,
    Construct::AtSign,
    Construct::Division,
    Construct::Power,
    Construct::BitOperator,
    Construct::Ellipsis,
    Construct::Syntax,
    Construct::TooManyFunctions,
    Construct::ModuleState,
    Construct::ModuleStatement,
    Construct::ClassStatement,
    Construct::DuplicateName,
    Construct::SpecialMethod,
    Construct::SpecialName,
    Construct::PrivateName,
    Construct::UnknownBase,
    Construct::BaseChain,
    Construct::Parameters,
    Construct::MutableDefault,
    Construct::Default,
    Construct::Annotation,
    Construct::ClassScope,
    Construct::TypingName,
    Construct::BreakOutsideLoop,
    Construct::BareRaise,
    Construct::ExceptionName,
    Construct::Super,
    Construct::Arguments,
    Construct::UnknownName,
    Construct::BuiltinValue,
    Construct::CallDepth,
    Construct::KeywordArgument,
    Construct::MethodValue,
    Construct::ExceptionAttribute,
    Construct::FunctionAttribute,
    Construct::ClassAttribute,
    Construct::View,
    Construct::SuperOfAClass,
    Construct::ExceptionText,
    Construct::DictChanged,
    Construct::TupleDepth,
    Construct::MachineSize,
    Construct::StringFormat,
    Construct::Identity,
    Construct::SubscriptOfAClass,
    Construct::ComparisonDepth,
    Construct::UnhashableKey,
    Construct::Argument,
    Construct::StrOf,
    Construct::NonAsciiText,
    Construct::Method,
    Construct::Header,
    Construct::TestName,
    Construct::Form,
    Construct::TooLong,
    Construct::Report,
];

/// The word of a kind of goal.
pub fn kind_text(kind: ShownKind) -> &'static str
    ensures { result.now ≡ kind_text kind }
{
    match kind {
        ShownKind::Entry => "entry",
        ShownKind::True => "true",
        ShownKind::False => "false",
        ShownKind::Reached => "line",
    }
}

/// The word of an operator.
pub fn operator_text(operator: Operator) -> &'static str
    ensures { result.now ≡ operator_text operator }
{
    match operator {
        Operator::Aod => "AOD",
        Operator::Aor => "AOR",
        Operator::Asr => "ASR",
        Operator::Bcr => "BCR",
        Operator::Coi => "COI",
        Operator::Crp => "CRP",
        Operator::Ehd => "EHD",
        Operator::Exs => "EXS",
        Operator::Lcr => "LCR",
        Operator::Ror => "ROR",
    }
}

// The first kind of a table that is spelled so.
fn find_kind(table: &[ShownKind], word: &[u8]) -> Option<ShownKind>
    ensures { result ≡ find (λ x. bytes_eq (kind_text x) word.now) table.now }
{
    table
        .iter()
        .copied()
        .find(|kind| is(kind_text(*kind).as_bytes(), word))
}

// The first operator of a table that is spelled so.
fn find_operator(table: &[Operator], word: &[u8]) -> Option<Operator>
    ensures { result ≡ find (λ x. bytes_eq (operator_text x) word.now) table.now }
{
    table
        .iter()
        .copied()
        .find(|operator| is(operator_text(*operator).as_bytes(), word))
}

// The first construct of a table that is spelled so.
fn find_construct(table: &[Construct], name: &[u8]) -> Option<Construct>
    ensures { result ≡ find (λ x. bytes_eq (text_of x) name.now) table.now }
{
    table
        .iter()
        .copied()
        .find(|construct| is(construct.text().as_bytes(), name))
}

/// The kind of goal that a word is.
pub fn kind_named(word: &[u8]) -> Result<ShownKind, Fault>
    ensures { Gives (λ x. x) result (named kind_text kinds word.now) }
{
    match find_kind(&KINDS, word) {
        Some(kind) => Ok(kind),
        None => Err(Fault::Form),
    }
}

/// The operator that a word is.
pub fn operator_named(word: &[u8]) -> Result<Operator, Fault>
    ensures { Gives (λ x. x) result (named operator_text operators word.now) }
{
    match find_operator(&OPERATORS, word) {
        Some(operator) => Ok(operator),
        None => Err(Fault::Form),
    }
}

/// The construct that a text names.
pub fn construct_named(name: &[u8]) -> Result<Construct, Fault>
    ensures { Gives (λ x. x) result (named text_of constructs name.now) }
{
    match find_construct(&CONSTRUCTS, name) {
        Some(construct) => Ok(construct),
        None => Err(Fault::Form),
    }
}
