// The name in an IRI.
ghost use Rattle.std.specs.Prelude.{◌≡◌, option_map};
ghost use Rattle.crm_properties.specs.Names.{behind, code_in, name_of, name_in, archaeo_space, extension_space, crm_space};

use crate::Space;

/// A name: where it is looked for, and its text there.
#[derive(Clone, Copy)]
pub struct Name<'a> {
    pub space: Space,
    pub text: &'a [u8],
}

// What follows the prefix.
fn behind_prefix<'a>(prefix: &[u8], text: &'a [u8]) -> Option<&'a [u8]>
    ensures { option_map (λ x. x.now) result ≡ behind prefix.now text.now }
{
    if prefix.len() <= text.len() && &text[..prefix.len()] == prefix {
        Some(&text[prefix.len()..])
    } else {
        None
    }
}

// Up to the first `_`, or the whole.
fn code_of_name(text: &[u8]) -> &[u8]
    ensures { result.now ≡ code_in text.now }
{
    for (i, b) in text.iter().enumerate() {
        if *b == b'_' {
            return &text[..i];
        }
    }
    text
}

#[tactic(auto, unfolding(crate::specs::Names::archaeo_space))]
fn archaeo() -> &'static str
    ensures { result.now ≡ archaeo_space }
{
    "http://www.cidoc-crm.org/cidoc-crm/CRMarchaeo/"
}

#[tactic(auto, unfolding(crate::specs::Names::extension_space))]
fn extension() -> &'static str
    ensures { result.now ≡ extension_space }
{
    "http://www.cidoc-crm.org/extensions/crmarchaeo/"
}

#[tactic(auto, unfolding(crate::specs::Names::crm_space))]
fn crm() -> &'static str
    ensures { result.now ≡ crm_space }
{
    "http://www.cidoc-crm.org/cidoc-crm/"
}

// The name by what follows each namespace.
fn pick<'a>(
    iri: &'a [u8],
    archaeo: Option<&'a [u8]>,
    extension: Option<&'a [u8]>,
    crm: Option<&'a [u8]>,
) -> Name<'a>
    ensures space { result.space ≡ (name_in iri.now (option_map (λ x. x.now) archaeo.entry) (option_map (λ x. x.now) extension.entry) (option_map (λ x. x.now) crm.entry)).space }
    ensures text { result.text.now ≡ (name_in iri.now (option_map (λ x. x.now) archaeo.entry) (option_map (λ x. x.now) extension.entry) (option_map (λ x. x.now) crm.entry)).text }
{
    match archaeo {
        Some(rest) => Name {
            space: Space::Archaeo,
            text: code_of_name(rest),
        },
        None => match extension {
            Some(rest) => Name {
                space: Space::Archaeo,
                text: code_of_name(rest),
            },
            None => match crm {
                Some(rest) => Name {
                    space: Space::Crm,
                    text: code_of_name(rest),
                },
                None => Name {
                    space: Space::Whole,
                    text: iri,
                },
            },
        },
    }
}

/// The name in an IRI; the longest namespace decides.
pub fn name_of_iri(iri: &[u8]) -> Name<'_>
    ensures space { result.space ≡ (name_of iri.now).space }
    ensures text { result.text.now ≡ (name_of iri.now).text }
{
    let in_archaeo = behind_prefix(archaeo().as_bytes(), iri);
    let in_extension = behind_prefix(extension().as_bytes(), iri);
    let in_crm = behind_prefix(crm().as_bytes(), iri);
    pick(iri, in_archaeo, in_extension, in_crm)
}
