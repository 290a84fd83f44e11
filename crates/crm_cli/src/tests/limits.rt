// What is at its limit and gets one more, and what is asked again after a refusal.
ghost use Rattle.std.specs.Prelude.{◌≡◌, [], IfOk};

use crm_outside::Text;
use rdf_chars::{BadUtf8, Utf8Steps};
use rdf_terms::{Literal, NameFault, Names, Term, Triple};
use std::alloc::{AllocError, Global};
use std::test::Fail;
use triple_pool::{PoolFault, TriplePool, Walk};

// How many triples there are at most, and how many names.
const LIMIT: u32 = 262_144;

// A triple with a subject and an object of its own.
fn own(i: u32) -> Triple {
    Triple {
        s: Term::Iri(i),
        p: Term::Iri(0),
        o: Term::Iri(i),
        at: 0,
    }
}

fn full_pool(alloc: Global) -> Result<TriplePool, PoolFault> {
    let mut pool = TriplePool::new(alloc);
    for i in 0..LIMIT {
        pool.add(own(i))?;
    }
    Ok(pool)
}

fn is_alone(mut walk: Walk<'_>, number: u32) -> bool {
    walk.next() == Some(number) && walk.next().is_none()
}

// Whether the triple of a number is held, under this number alone.
fn holds_own(pool: &TriplePool, i: u32) -> bool {
    pool.get(i) == Some(own(i))
        && is_alone(pool.by_subject(Term::Iri(i)), i)
        && is_alone(pool.by_object(Term::Iri(i)), i)
}

#[test]
fn as_many_triples_as_may_be(rt: HostRuntime) -> Result<(), Fail> {
    let mut pool = full_pool(rt.alloc())?;
    for (added, answer) in [
        (LIMIT, Err(PoolFault::Full)),
        (7, Ok(None)),
        (LIMIT + 1, Err(PoolFault::Full)),
    ] {
        assert_eq!(rt; pool.add(own(added)), answer);
    }
    assert_eq!(rt; pool.len(), LIMIT);
    for i in 0..LIMIT {
        assert!(rt; holds_own(&pool, i), "{i}");
    }
    // A number is not used again.
    assert_eq!(rt; pool.remove(7), Some(own(7)));
    assert_eq!(rt; pool.add(own(7)), Err(PoolFault::Full));
    assert_eq!(rt; pool.len(), LIMIT - 1);
    Ok(())
}

fn add_iri(alloc: Global, names: &mut Names, number: u32) -> Result<(), Fail> {
    names.iri(format!(in alloc; "http://e/{number}")?.as_str())?;
    Ok(())
}

fn tagged(alloc: Global, tag: &str) -> Result<Literal, AllocError>
    ensures { IfOk result (λ l. l.lexical ≡ []) }
{
    Ok(Literal {
        lexical: Text::from_str(alloc, "")?,
        datatype: Text::from_str(alloc, "http://e/text")?,
        tag: Text::from_str(alloc, tag)?,
    })
}

#[test]
fn as_many_names_as_may_be(rt: HostRuntime) -> Result<(), Fail> {
    let alloc = rt.alloc();
    let mut names = Names::new(alloc);
    assert_eq!(rt; names.literal(tagged(alloc, "en")?), Ok(Term::Lit(0)));
    for i in 1..LIMIT {
        add_iri(alloc, &mut names, i)?;
    }
    for (tag, answer) in [
        ("en", Ok(Term::Lit(0))),
        ("de", Err(NameFault::TooMany)),
        ("en", Ok(Term::Lit(0))),
    ] {
        assert_eq!(rt; names.literal(tagged(alloc, tag)?), answer);
    }
    for (iri, answer) in [
        ("http://e/1", Ok(Term::Iri(0))),
        ("http://e/0", Err(NameFault::TooMany)),
        ("http://e/262143", Ok(Term::Iri(LIMIT - 2))),
    ] {
        assert_eq!(rt; names.iri(iri), answer);
    }
    assert_eq!(rt; names.len(), LIMIT);
    Ok(())
}

#[test]
fn a_bad_byte_is_told_again(rt: HostRuntime) {
    for (first, second, third, at) in [
        // no byte of a character; a character that breaks off; one that is cut short; a surrogate; too large a number
        (b'a', b'b', 0x80, 2),
        (b'a', 0xC3, b'(', 1),
        (0xE2, 0x82, b'a', 0),
        (b'a', 0xED, 0xA0, 1),
        (b'a', 0xF4, 0x90, 1),
    ] {
        let mut steps = Utf8Steps::new();
        assert!(rt; steps.push(first).is_ok() && steps.push(second).is_ok());
        let bad = Some(BadUtf8 { at });
        assert_eq!(rt; steps.push(third).err(), bad);
        assert_eq!(rt; steps.push(b'a').err(), bad);
        assert_eq!(rt; steps.push(third).err(), bad);
        assert_eq!(rt; steps.finish().err(), bad);
    }
}
