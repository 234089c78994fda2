// The words of the command line.
ghost use Rattle.std.specs.Prelude.{◌≡◌, ◌<◌, IfSome, IsTrue, bytes_eq, chars, length, None, Some, Err, IfOk, option_copied};
ghost use Rattle.std.specs.List.{list_all};
ghost use Rattle.py_language.specs.TokensCharacters.{is_letter, is_word};
ghost use Rattle.py_language.specs.TokensNames.{is_name};
ghost use Rattle.pynguin_job.specs.Faults.{path_of};
ghost use Rattle.pynguin_job.specs.Words.{job_at, job_of, has_form, last_part, is_module_name, module_name_of, word};

use py_lexer::keyword_of;
use pyn_base::{Memory, Name, Text};
use std::alloc::Global;

/// A file that a job names.
#[derive(Clone, Copy, Debug, PartialEq, Eq)]
pub enum JobFile {
    /// The module.
    Source,
    Suite,
    Report,
}

/// What the words ask for.
#[derive(Debug, Drop)]
pub struct Job {
    /// The path of the module.
    pub source: Text,
    /// The path of the suite.
    pub suite: Text,
    /// The path of the report.
    pub report: Text,
    /// The module's name.
    pub name: Name,
}

impl Job {
    /// The path of one of its files.
    pub fn path(&self, file: JobFile) -> &Text
        ensures { result.now ≡ path_of self.now file }
    {
        match file {
            JobFile::Source => &self.source,
            JobFile::Suite => &self.suite,
            JobFile::Report => &self.report,
        }
    }
}

/// Why the words give no job.
#[derive(Clone, Copy, Debug, PartialEq, Eq)]
pub enum WordsFault {
    Refused,
    Memory,
}

impl From<Memory> for WordsFault {
    ghost use Rattle.std.specs.Prelude.{◌≡◌};
    ghost use Rattle.pynguin_job.specs.declared.words.WordsFault.TheVariants as fault;

    ghost from_gives = { λ _ e. e ≡ fault.Memory };

    fn from(_: Memory) -> Self {
        WordsFault::Memory
    }
}

// What follows the last slash of a path.
fn last_part(path: &[char]) -> &[char]
    ensures { result.now ≡ last_part path.now }
{
    let mut start = 0;
    for (i, c) in path.iter().enumerate() {
        if *c == '/' {
            start = i + 1;
        }
    }
    &path[start..]
}

fn is_letter(c: char) -> bool
    ensures { result ≡ is_letter c }
{
    c.is_ascii_alphabetic() || c == '_'
}

fn is_word(c: char) -> bool
    ensures { result ≡ is_word c }
{
    is_letter(c) || c.is_ascii_digit()
}

fn are_words(letters: &[char]) -> bool
    ensures { result ≡ list_all is_word letters.now }
{
    letters.iter().all(|c| is_word(*c))
}

// Whether this is an identifier.
fn is_name(name: &[char]) -> bool
    ensures { result ≡ is_name name.now }
{
    let Some((first, rest)) = name.split_first() else {
        return false;
    };
    if !is_letter(*first) {
        return false;
    }
    are_words(rest)
}

// The name of these letters.
fn name_of(alloc: Global, letters: &[char]) -> Result<Name, Memory>
    ensures { IfOk result (λ name. name ≡ letters.now) }
{
    let mut text = Text::new(alloc);
    for c in letters {
        text.push(*c)?;
    }
    Ok(Name::from_text(text))
}

// Whether a module may have this name, which is an identifier.
fn may_name_module(name: &Name) -> bool
    requires { IsTrue (is_name name.now) }
    ensures { result ≡ is_module_name name.now }
{
    if keyword_of(name.as_str().as_bytes()).is_some() {
        return false;
    }
    !name.is("pytest")
}

// The name of the module in a file that is called this.
fn module_name(alloc: Global, file: &[char]) -> Result<Option<Name>, Memory>
    ensures { IfOk result (λ name. name ≡ module_name_of file.now) }
{
    let (stem, ending) = file.split_at(file.len().saturating_sub(3));
    if ending != ['.', 'p', 'y'].as_slice() {
        return Ok(None);
    }
    if !is_name(stem) {
        return Ok(None);
    }
    let name = name_of(alloc, stem)?;
    if !may_name_module(&name) {
        return Ok(None);
    }
    Ok(Some(name))
}

// The job of three paths.
fn job_at(alloc: Global, source: &Text, suite: &Text, report: &Text) -> Result<Job, WordsFault>
    ensures ok { IfOk result (λ job. job_at source.now suite.now report.now (module_name_of (last_part source.now)) ≡ Some job) }
    ensures refused { result ≡ Err WordsFault.Refused → job_at source.now suite.now report.now (module_name_of (last_part source.now)) ≡ None }
{
    let letters = source.letters(alloc)?;
    let Some(name) = module_name(alloc, last_part(letters.as_slice()))? else {
        return Err(WordsFault::Refused);
    };
    if source.is_same(suite) || source.is_same(report) || suite.is_same(report) {
        return Err(WordsFault::Refused);
    }
    Ok(Job {
        source: source.to_owned(alloc)?,
        suite: suite.to_owned(alloc)?,
        report: report.to_owned(alloc)?,
        name,
    })
}

// Whether this text stands at a place.
fn is_at(words: &[Text], at: usize, text: &str) -> bool
    requires { at < length words.now }
    ensures { result ≡ bytes_eq (word words.now at) (chars text.now) }
{
    words[at].is(text)
}

#[tactic(auto, using(crate::proofs::Literals::literals))]
fn has_form(words: &[Text]) -> bool
    ensures { result ≡ has_form words.now }
{
    if words.len() != 6 {
        return false;
    }
    if !is_at(words, 0, "--module") {
        return false;
    }
    if !is_at(words, 2, "--suite") {
        return false;
    }
    is_at(words, 4, "--report")
}

/// The job that the words ask for: they are `--module PATH --suite PATH --report PATH`, in this order. They are refused
/// where they have another form, where two paths are equal, and where the last part of the module's path isn't an
/// identifier followed by `.py`, or the identifier is a keyword of Python 3.10 or `pytest`.
pub fn read_words(alloc: Global, words: &[Text]) -> Result<Job, WordsFault>
    ensures ok { IfOk result (λ job. job_of words.now ≡ Some job) }
    ensures refused { result ≡ Err WordsFault.Refused → job_of words.now ≡ None }
{
    if !has_form(words) {
        return Err(WordsFault::Refused);
    }
    job_at(alloc, &words[1], &words[3], &words[5])
}
