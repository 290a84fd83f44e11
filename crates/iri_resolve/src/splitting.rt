// The parts of a reference.
ghost use Rattle.std.specs.Prelude.{◌≡◌, ◌≤◌, length};
ghost use Rattle.iri_resolve.specs.Splitting as spec;

/// A range of a text's bytes: from the byte at `from` up to before the byte at `to`.
#[derive(Clone, Copy, PartialEq, Eq, Debug, Drop)]
pub struct Span {
    pub from: usize,
    pub to: usize,
}

/// The parts of a reference, each without the marks that set it off.
#[derive(Clone, Copy, PartialEq, Eq, Debug, Drop)]
pub struct Parts {
    /// Before the colon.
    pub scheme: Option<Span>,
    /// Behind two slashes.
    pub authority: Option<Span>,
    /// The path, which may be empty.
    pub path: Span,
    /// Behind the question mark.
    pub query: Option<Span>,
    /// Behind the number sign.
    pub fragment: Option<Span>,
}

fn is_scheme_byte(byte: u8) -> bool
    ensures { result ≡ spec.is_scheme_byte byte }
{
    byte.is_ascii_alphanumeric() || byte == b'+' || byte == b'-' || byte == b'.'
}

fn scheme_length(text: &[u8]) -> Option<usize>
    ensures length { result ≡ spec.scheme_length text.now }
    ensures within { spec.behind_scheme result ≤ length text.now }
{
    let mut n = 0;
    while n < text.len() && is_scheme_byte(text[n]) {
        n += 1;
    }
    if n < text.len() && text[n] == b':' && text[0].is_ascii_alphabetic() {
        Some(n)
    } else {
        None
    }
}

/// Whether the text begins with a scheme: a letter, then letters, digits, `+`, `-` and `.`, then a colon.
pub fn has_scheme(text: &str) -> bool
    ensures { result ≡ spec.has_scheme text.now }
{
    scheme_length(text.as_bytes()).is_some()
}

// The place of the first of the bytes `ends` from `from` on, or the end.
fn until(ends: &[u8], text: &[u8], from: usize) -> usize
    requires { from ≤ length text.now }
    ensures place { result ≡ spec.until ends.now text.now from }
    ensures from { from ≤ result }
    ensures within { result ≤ length text.now }
{
    let mut at = from;
    while at < text.len() && !ends.contains(&text[at]) {
        at += 1;
    }
    at
}

fn authority(text: &[u8], at: usize) -> Option<Span>
    requires { at ≤ length text.now }
    ensures span { result ≡ spec.authority_span text.now at }
    ensures there { spec.IsWithinIfThere text.now result }
    ensures within { spec.behind result at ≤ length text.now }
{
    if text[at..].starts_with(b"//") {
        Some(Span {
            from: at + 2,
            to: until(b"/?#", text, at + 2),
        })
    } else {
        None
    }
}

fn query(text: &[u8], at: usize) -> Option<Span>
    requires { at ≤ length text.now }
    ensures span { result ≡ spec.query_span text.now at }
    ensures there { spec.IsWithinIfThere text.now result }
    ensures within { spec.behind result at ≤ length text.now }
{
    if at < text.len() && text[at] == b'?' {
        Some(Span {
            from: at + 1,
            to: until(b"#", text, at + 1),
        })
    } else {
        None
    }
}

fn fragment(text: &[u8], at: usize) -> Option<Span>
    ensures span { result ≡ spec.fragment_span text.now at }
    ensures there { spec.IsWithinIfThere text.now result }
{
    if at < text.len() && text[at] == b'#' {
        Some(Span {
            from: at + 1,
            to: text.len(),
        })
    } else {
        None
    }
}

fn behind(span: Option<Span>, at: usize) -> usize
    ensures { result ≡ spec.behind span at }
{
    match span {
        Some(span) => span.to,
        None => at,
    }
}

fn scheme_span(scheme: Option<usize>) -> Option<Span>
    ensures { result ≡ spec.scheme_span scheme }
{
    match scheme {
        Some(n) => Some(Span { from: 0, to: n }),
        None => None,
    }
}

/// The places of a reference's parts.
pub fn split(text: &str) -> Parts
    ensures { result ≡ spec.split text.now }
{
    split_bytes(text.as_bytes())
}

pub(crate) fn split_bytes(text: &[u8]) -> Parts
    ensures parts { result ≡ spec.split text.now }
    ensures within { spec.AreWithin text.now result }
{
    let scheme = scheme_length(text);
    let start = match scheme {
        Some(n) => n + 1,
        None => 0,
    };
    let authority = authority(text, start);
    let from = behind(authority, start);
    let path = Span {
        from,
        to: until(b"?#", text, from),
    };
    let query = query(text, path.to);
    Parts {
        scheme: scheme_span(scheme),
        authority,
        path,
        query,
        fragment: fragment(text, behind(query, path.to)),
    }
}
