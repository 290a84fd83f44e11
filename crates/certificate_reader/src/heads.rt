// The first lines of certificates.
ghost use Rattle.std.specs.Prelude.{◌≡◌, IfOk, IfErr, None};
ghost use Rattle.certificate_trees.specs.Reads.{IsRead};
ghost use Rattle.certificate_trees.specs.Beginnings.{IsWhole, IsRefused};
ghost use Rattle.certificate_reader.specs.LineGrammar.{HeadForm};
ghost use Rattle.certificate_reader.specs.HeadTexts.{head_text};

use crate::{CertRefusal, Found, read_word};
use certificate_trees::stands_at;

/// What a certificate is about; one of orders may have `let` lines from version 2 on.
#[derive(Clone, Copy, PartialEq, Eq, Debug)]
pub enum Kind {
    Orders,
    SharedOrders,
    Classes,
    Matrix,
}

fn found(kind: Kind, to: usize) -> Found<Kind>
    ensures { result ≡ record { value = kind; to = to } }
{
    Found { value: kind, to }
}

/// The kind that the first line says.
pub fn read_head(text: &[u8]) -> Result<Found<Kind>, CertRefusal>
    ensures read { IfOk result (λ f. IsRead text.now 0 f.to (head_text f.value)) }
    ensures whole { IfOk result (λ f. IsWhole HeadForm text.now 0 f.to) }
    ensures refused { IfErr result (λ e. IsRefused HeadForm None text.now 0 e) }
{
    let at = read_word(text, 0, b"crmtime ")?;
    if stands_at(text, at, b'2') {
        let to = read_word(text, 0, b"crmtime 2 orders\n")?;
        return Ok(found(Kind::SharedOrders, to));
    }
    let at = read_word(text, 0, b"crmtime 1 ")?;
    if stands_at(text, at, b'c') {
        let to = read_word(text, 0, b"crmtime 1 classes\n")?;
        return Ok(found(Kind::Classes, to));
    }
    if stands_at(text, at, b'm') {
        let to = read_word(text, 0, b"crmtime 1 matrix\n")?;
        return Ok(found(Kind::Matrix, to));
    }
    let to = read_word(text, 0, b"crmtime 1 orders\n")?;
    Ok(found(Kind::Orders, to))
}
