// The words of the command line.
ghost use Rattle.std.specs.Prelude.{◌≡◌, IfOk, map, string_bytes};
ghost use Rattle.std.specs.List.{list_any};
ghost use Rattle.order_core.specs.Primitives.{primitive_named};
ghost use Rattle.command_words.specs.Words as spec;

use crate::commands::{Command, CommandName, JoinKind, TextList};
use crm_certify::CertKind;
use crm_outside::Text;
use inference_reports::{is_iri, is_node_name};
use itoa::Buffer;
use order_core::Primitive;
use rdf_vocabulary::xsd_string;
use std::alloc::{AllocError, Global};
use time_primitive::{Side, read_date};

fn command_named(word: &str) -> Option<CommandName>
    ensures { result ≡ spec.command_named word.now }
{
    match word {
        "orders" => Some(CommandName::Orders),
        "check" => Some(CommandName::Check),
        "reason" => Some(CommandName::Reason),
        "explain" => Some(CommandName::Explain),
        "conflicts" => Some(CommandName::Conflicts),
        "bounds" => Some(CommandName::Bounds),
        "dates" => Some(CommandName::Dates),
        "when" => Some(CommandName::When),
        "allen" => Some(CommandName::Allen),
        "legacy" => Some(CommandName::Legacy),
        "join" => Some(CommandName::Join),
        "lines" => Some(CommandName::Lines),
        "matrix" => Some(CommandName::Matrix),
        "certify" => Some(CommandName::Certify),
        "verify" => Some(CommandName::Verify),
        "convert" => Some(CommandName::Convert),
        "sample" => Some(CommandName::Sample),
        "help" => Some(CommandName::Help),
        "version" => Some(CommandName::Version),
        _ => None,
    }
}

fn kind_named(word: &str) -> Option<CertKind>
    ensures { result ≡ spec.kind_named word.now }
{
    match word {
        "orders" => Some(CertKind::Orders),
        "classes" => Some(CertKind::Classes),
        "matrix" => Some(CertKind::Matrix),
        _ => None,
    }
}

fn join_kind_named(word: &str) -> Option<JoinKind>
    ensures { result ≡ spec.join_kind_named word.now }
{
    match word {
        "check" => Some(JoinKind::Check),
        "orders" => Some(JoinKind::Orders),
        "reason" => Some(JoinKind::Reason),
        "convert" => Some(JoinKind::Convert),
        _ => None,
    }
}

fn is_option(word: &str) -> bool
    ensures { result ≡ spec.is_option word.now }
{
    word.as_bytes().starts_with(b"--")
}

fn any_option(words: &[String]) -> bool
    ensures { result ≡ list_any (λ w. spec.is_option (string_bytes w)) words.now }
{
    words.iter().any(|word| is_option(word.as_str()))
}

fn has_option(words: &[String]) -> bool
    ensures { result ≡ list_any spec.is_option (map string_bytes words.now) }
{
    any_option(words)
}

// Two words for nodes that are not the same.
fn are_apart(a: &str, b: &str) -> bool
    ensures { result ≡ spec.are_apart a.now b.now }
{
    is_node_name(a) && is_node_name(b) && a != b
}

// Whether the word writes the number, which is one of 1 to 999, without leading zero.
fn writes_sample(n: u32, word: &str) -> bool
    ensures { result ≡ spec.writes_sample n word.now }
{
    n > 0 && n < 1000 && Buffer::new().format(n) == word
}

fn sample_number(word: &str) -> Option<u32>
    ensures { result ≡ spec.sample_number word.now }
{
    let Ok(n) = word.parse::<u32>() else {
        return None;
    };
    if writes_sample(n, word) {
        return Some(n);
    }
    None
}

// The first instant of the date that the word is, as a text without datatype.
fn instant_named(word: &str) -> Option<i128>
    ensures { result ≡ spec.instant_named word.now }
{
    if word.len() > u32::MAX as usize {
        return None;
    }
    match read_date(word, xsd_string(), Side::Lower) {
        Ok(t) => Some(t),
        Err(_) => None,
    }
}

fn file_command(name: CommandName, base: Option<Text>, file: Text) -> Option<Command>
    ensures { result ≡ spec.file_command name base file }
{
    match name {
        CommandName::Orders => Some(Command::Orders { base, file }),
        CommandName::Check => Some(Command::Check { base, file }),
        CommandName::Reason => Some(Command::Reason { base, file }),
        CommandName::Conflicts => Some(Command::Conflicts { base, file }),
        CommandName::Bounds => Some(Command::Bounds { base, file }),
        CommandName::Dates => Some(Command::Dates { base, file }),
        CommandName::Allen => Some(Command::Allen { base, file }),
        CommandName::Legacy => Some(Command::Legacy { base, file }),
        CommandName::Lines => Some(Command::Lines { base, file }),
        CommandName::Matrix => Some(Command::Matrix { base, file }),
        CommandName::Convert => Some(Command::Convert { base, file }),
        _ => None,
    }
}

// FILE
fn file_form(
    alloc: Global,
    name: CommandName,
    base: Option<Text>,
    words: &[String],
) -> Result<Option<Command>, AllocError>
    ensures { IfOk result (λ c. c ≡ spec.file_form name base (map string_bytes words.now)) }
{
    let [file] = words else {
        return Ok(None);
    };
    let file = Text::from_str(alloc, file.as_str())?;
    Ok(file_command(name, base, file))
}

fn explain(
    alloc: Global,
    base: Option<Text>,
    file: &str,
    a: &str,
    code: &str,
    b: &str,
) -> Result<Option<Command>, AllocError>
    ensures { IfOk result (λ c. c ≡ spec.explain base file.now a.now (primitive_named code.now) b.now) }
{
    let Some(code) = Primitive::of_code(code) else {
        return Ok(None);
    };
    let file = Text::from_str(alloc, file)?;
    let a = Text::from_str(alloc, a)?;
    let b = Text::from_str(alloc, b)?;
    Ok(Some(Command::Explain {
        base,
        file,
        a,
        code,
        b,
    }))
}

// CODE B, behind FILE A
fn question_form(
    alloc: Global,
    base: Option<Text>,
    file: &str,
    a: &str,
    words: &[String],
) -> Result<Option<Command>, AllocError>
    ensures { IfOk result (λ c. c ≡ spec.question_form base file.now a.now (map string_bytes words.now)) }
{
    let [code, b] = words else {
        return Ok(None);
    };
    if !are_apart(a, b.as_str()) {
        return Ok(None);
    }
    explain(alloc, base, file, a, code.as_str(), b.as_str())
}

// FILE A CODE B
fn explain_form(
    alloc: Global,
    base: Option<Text>,
    words: &[String],
) -> Result<Option<Command>, AllocError>
    ensures { IfOk result (λ c. c ≡ spec.form CommandName.Explain base (map string_bytes words.now)) }
{
    let [file, a, words @ ..] = words else {
        return Ok(None);
    };
    question_form(alloc, base, file.as_str(), a.as_str(), words)
}

// KIND FILE
fn certify_form(
    alloc: Global,
    base: Option<Text>,
    words: &[String],
) -> Result<Option<Command>, AllocError>
    ensures { IfOk result (λ c. c ≡ spec.form CommandName.Certify base (map string_bytes words.now)) }
{
    let [kind, file] = words else {
        return Ok(None);
    };
    let Some(kind) = kind_named(kind.as_str()) else {
        return Ok(None);
    };
    let file = Text::from_str(alloc, file.as_str())?;
    Ok(Some(Command::Certify { base, kind, file }))
}

// FILE CERT
fn verify_form(
    alloc: Global,
    base: Option<Text>,
    words: &[String],
) -> Result<Option<Command>, AllocError>
    ensures { IfOk result (λ c. c ≡ spec.form CommandName.Verify base (map string_bytes words.now)) }
{
    let [file, cert] = words else {
        return Ok(None);
    };
    let file = Text::from_str(alloc, file.as_str())?;
    let cert = Text::from_str(alloc, cert.as_str())?;
    Ok(Some(Command::Verify { base, file, cert }))
}

// FILE DATE
fn when_form(
    alloc: Global,
    base: Option<Text>,
    words: &[String],
) -> Result<Option<Command>, AllocError>
    ensures { IfOk result (λ c. c ≡ spec.form CommandName.When base (map string_bytes words.now)) }
{
    let [file, date] = words else {
        return Ok(None);
    };
    let Some(t) = instant_named(date.as_str()) else {
        return Ok(None);
    };
    let file = Text::from_str(alloc, file.as_str())?;
    Ok(Some(Command::When { base, file, t }))
}

// B, behind FILE A
fn pair_form(
    alloc: Global,
    base: Option<Text>,
    file: &str,
    a: &str,
    words: &[String],
) -> Result<Option<Command>, AllocError>
    ensures { IfOk result (λ c. c ≡ spec.pair_form base file.now a.now (map string_bytes words.now)) }
{
    let [b] = words else {
        return Ok(None);
    };
    if !are_apart(a, b.as_str()) {
        return Ok(None);
    }
    let file = Text::from_str(alloc, file)?;
    let a = Text::from_str(alloc, a)?;
    let b = Text::from_str(alloc, b.as_str())?;
    Ok(Some(Command::AllenPair { base, file, a, b }))
}

// FILE, or FILE A B
fn allen_form(
    alloc: Global,
    base: Option<Text>,
    words: &[String],
) -> Result<Option<Command>, AllocError>
    ensures { IfOk result (λ c. c ≡ spec.form CommandName.Allen base (map string_bytes words.now)) }
{
    let [file, a, rest @ ..] = words else {
        return file_form(alloc, CommandName::Allen, base, words);
    };
    pair_form(alloc, base, file.as_str(), a.as_str(), rest)
}

fn texts_of(alloc: Global, words: &[String]) -> Result<TextList, AllocError>
    ensures { IfOk result (λ t. t ≡ map string_bytes words.now) }
{
    let mut texts = TextList::new(alloc);
    for word in words {
        texts.push(Text::from_str(alloc, word.as_str())?)?;
    }
    Ok(texts)
}

// FILE FILE .., behind REPORT
fn files_form(
    alloc: Global,
    base: Option<Text>,
    report: JoinKind,
    words: &[String],
) -> Result<Option<Command>, AllocError>
    ensures { IfOk result (λ c. c ≡ spec.files_form base report (map string_bytes words.now)) }
{
    if words.len() < 2 || words.len() > 16 {
        return Ok(None);
    }
    let files = texts_of(alloc, words)?;
    Ok(Some(Command::Join {
        base,
        report,
        files,
    }))
}

// REPORT FILE FILE ..
fn join_form(
    alloc: Global,
    base: Option<Text>,
    words: &[String],
) -> Result<Option<Command>, AllocError>
    ensures { IfOk result (λ c. c ≡ spec.form CommandName.Join base (map string_bytes words.now)) }
{
    let [report, words @ ..] = words else {
        return Ok(None);
    };
    match join_kind_named(report.as_str()) {
        Some(report) => files_form(alloc, base, report, words),
        None => Ok(None),
    }
}

// N, with no base
fn sample_form(base: &Option<Text>, words: &[String]) -> Option<Command>
    ensures { result ≡ spec.form CommandName.Sample base.now (map string_bytes words.now) }
{
    if base.is_some() {
        return None;
    }
    let [word] = words else {
        return None;
    };
    match sample_number(word.as_str()) {
        Some(n) => Some(Command::Sample { n }),
        None => None,
    }
}

// The help on the command that the word names.
fn help_on(word: &str) -> Option<Command>
    ensures { result ≡ spec.help_on (spec.command_named word.now) }
{
    match command_named(word) {
        Some(name) => Some(Command::Help {
            command: Some(name),
        }),
        None => None,
    }
}

// Nothing, or COMMAND
fn help_words(words: &[String]) -> Option<Command>
    ensures { result ≡ spec.help_form (map string_bytes words.now) }
{
    match words {
        [] => Some(Command::Help { command: None }),
        [word] => help_on(word.as_str()),
        _ => None,
    }
}

// The same, with no base
fn help_form(base: &Option<Text>, words: &[String]) -> Option<Command>
    ensures { result ≡ spec.form CommandName.Help base.now (map string_bytes words.now) }
{
    match base {
        Some(_) => None,
        None => help_words(words),
    }
}

// Nothing, with no base
fn version_form(base: &Option<Text>, words: &[String]) -> Option<Command>
    ensures { result ≡ spec.form CommandName.Version base.now (map string_bytes words.now) }
{
    if base.is_some() {
        return None;
    }
    match words {
        [] => Some(Command::Version),
        _ => None,
    }
}

// The command of a name with its base and the words behind them.
fn form(
    alloc: Global,
    name: CommandName,
    base: Option<Text>,
    words: &[String],
) -> Result<Option<Command>, AllocError>
    ensures { IfOk result (λ c. c ≡ spec.form name base (map string_bytes words.now)) }
{
    match name {
        CommandName::Explain => explain_form(alloc, base, words),
        CommandName::When => when_form(alloc, base, words),
        CommandName::Allen => allen_form(alloc, base, words),
        CommandName::Join => join_form(alloc, base, words),
        CommandName::Certify => certify_form(alloc, base, words),
        CommandName::Verify => verify_form(alloc, base, words),
        CommandName::Sample => Ok(sample_form(&base, words)),
        CommandName::Help => Ok(help_form(&base, words)),
        CommandName::Version => Ok(version_form(&base, words)),
        CommandName::Orders
        | CommandName::Check
        | CommandName::Reason
        | CommandName::Conflicts
        | CommandName::Bounds
        | CommandName::Dates
        | CommandName::Legacy
        | CommandName::Lines
        | CommandName::Matrix
        | CommandName::Convert => file_form(alloc, name, base, words),
    }
}

// No other word begins with `--`.
fn plain_form(
    alloc: Global,
    name: CommandName,
    base: Option<Text>,
    words: &[String],
) -> Result<Option<Command>, AllocError>
    ensures { IfOk result (λ c. c ≡ spec.plain_form name base (map string_bytes words.now)) }
{
    if has_option(words) {
        return Ok(None);
    }
    form(alloc, name, base, words)
}

fn with_base(
    alloc: Global,
    name: CommandName,
    base: &str,
    words: &[String],
) -> Result<Option<Command>, AllocError>
    ensures { IfOk result (λ c. c ≡ spec.with_base name base.now (map string_bytes words.now)) }
{
    if !is_iri(base) {
        return Ok(None);
    }
    let base = Text::from_str(alloc, base)?;
    plain_form(alloc, name, Some(base), words)
}

// Behind the name may stand `--base` and an IRI.
fn based_form(
    alloc: Global,
    name: CommandName,
    words: &[String],
) -> Result<Option<Command>, AllocError>
    ensures { IfOk result (λ c. c ≡ spec.based_form name (map string_bytes words.now)) }
{
    let [word, base, rest @ ..] = words else {
        return plain_form(alloc, name, None, words);
    };
    if word.as_str() == "--base" {
        return with_base(alloc, name, base.as_str(), rest);
    }
    plain_form(alloc, name, None, words)
}

/// The command that the words name, if they have a form.
pub fn read_words(alloc: Global, words: &[String]) -> Result<Option<Command>, AllocError>
    ensures { IfOk result (λ c. c ≡ spec.command_of (map string_bytes words.now)) }
{
    let [name, words @ ..] = words else {
        return Ok(None);
    };
    match command_named(name.as_str()) {
        Some(name) => based_form(alloc, name, words),
        None => Ok(None),
    }
}
