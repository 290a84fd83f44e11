// The words that may name nodes.
ghost use Rattle.std.specs.Prelude.{◌≡◌};
ghost use Rattle.std.specs.List.{list_all};
ghost use Rattle.inference_reports.specs.NodeNames as spec;

use crate::asking::is_blank_name;
use iri_resolve::has_scheme;

fn is_iri_byte(byte: u8) -> bool
    ensures { result ≡ spec.is_iri_byte byte }
{
    byte > 32
        && !matches!(
            byte,
            b'<' | b'>' | b'"' | b'{' | b'}' | b'|' | b'^' | b'`' | b'\\'
        )
}

fn are_iri_bytes(bytes: &[u8]) -> bool
    ensures { result ≡ list_all spec.is_iri_byte bytes.now }
{
    bytes.iter().all(|byte| is_iri_byte(*byte))
}

/// Whether a word is an IRI as it stands between brackets, with a scheme and without an escape.
pub fn is_iri(word: &str) -> bool
    ensures { result ≡ spec.is_iri word.now }
{
    are_iri_bytes(word.as_bytes()) && has_scheme(word)
}

/// Whether a word may name a node: a blank node as `_:b` and its number, or an IRI as it stands between brackets.
pub fn is_node_name(word: &str) -> bool
    ensures { result ≡ spec.is_node_name word.now }
{
    is_blank_name(word) || is_iri(word)
}
