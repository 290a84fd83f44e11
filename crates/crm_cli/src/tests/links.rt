// The links of a pool beside a look at all of its triples.
use rdf_terms::{Term, Triple};
use std::alloc::{AllocError, Global};
use std::test::Fail;
use triple_pool::{Links, Place, PoolFault, Slot, TriplePool, Walk};

// What is done to a pool: a triple of three IRIs is added, or a number is removed.
enum Step {
    Add(u32, u32, u32),
    Remove(u32),
}

// Steps, and the numbers that then have the IRI 0 as subject, as predicate and as object.
struct Row {
    steps: &'static [Step],
    subjects: &'static [u32],
    predicates: &'static [u32],
    objects: &'static [u32],
}

const ROWS: [Row; 4] = [
    Row {
        steps: &[],
        subjects: &[],
        predicates: &[],
        objects: &[],
    },
    // The second and the fourth of six.
    Row {
        steps: &[
            Step::Add(0, 0, 1),
            Step::Add(0, 0, 2),
            Step::Add(1, 0, 0),
            Step::Add(0, 1, 1),
            Step::Add(1, 1, 2),
            Step::Add(0, 0, 3),
            Step::Remove(1),
            Step::Remove(3),
        ],
        subjects: &[0, 5],
        predicates: &[0, 2, 5],
        objects: &[2],
    },
    // The first, the last, one that is gone and one that never was; then one that came before, and others.
    Row {
        steps: &[
            Step::Add(0, 0, 0),
            Step::Add(0, 0, 1),
            Step::Add(0, 0, 0),
            Step::Add(1, 0, 0),
            Step::Remove(0),
            Step::Remove(0),
            Step::Remove(2),
            Step::Remove(7),
            Step::Add(0, 0, 0),
            Step::Add(0, 2, 0),
        ],
        subjects: &[1, 3, 4],
        predicates: &[1, 3],
        objects: &[3, 4],
    },
    // All are removed, and one comes.
    Row {
        steps: &[
            Step::Add(0, 0, 0),
            Step::Add(0, 0, 1),
            Step::Remove(1),
            Step::Remove(0),
            Step::Add(2, 0, 0),
        ],
        subjects: &[],
        predicates: &[2],
        objects: &[2],
    },
];

fn pool_of(alloc: Global, steps: &[Step]) -> Result<TriplePool, PoolFault> {
    let mut pool = TriplePool::new(alloc);
    for step in steps {
        match step {
            Step::Add(s, p, o) => {
                pool.add(Triple {
                    s: Term::Iri(*s),
                    p: Term::Iri(*p),
                    o: Term::Iri(*o),
                    at: 0,
                })?;
            }
            Step::Remove(number) => {
                pool.remove(*number);
            }
        }
    }
    Ok(pool)
}

fn term_at(triple: &Triple, place: Place) -> Term {
    match place {
        Place::Subject => triple.s,
        Place::Predicate => triple.p,
        Place::Object => triple.o,
    }
}

fn links_at(slot: &Slot, place: Place) -> Links {
    match place {
        Place::Subject => slot.subject,
        Place::Predicate => slot.predicate,
        Place::Object => slot.object,
    }
}

fn walk_at(pool: &TriplePool, place: Place, term: Term) -> Walk<'_> {
    match place {
        Place::Subject => pool.by_subject(term),
        Place::Predicate => pool.by_predicate(term),
        Place::Object => pool.by_object(term),
    }
}

// The numbers of the triples with a term at a place, by a look at all.
fn looked_up(
    alloc: Global,
    pool: &TriplePool,
    place: Place,
    term: Term,
) -> Result<Vec<u32>, AllocError> {
    let mut numbers = Vec::new(alloc);
    for (number, triple) in pool.iter() {
        if term_at(&triple, place) == term {
            numbers.push(number)?;
        }
    }
    Ok(numbers)
}

// Whether the links lead from each of these numbers to the next and to the one before, and nowhere at the ends.
fn are_linked(pool: &TriplePool, place: Place, numbers: &[u32]) -> bool {
    let mut before = None;
    let mut next = numbers.first().copied();
    for number in numbers {
        let Some(slot) = pool.slot(*number) else {
            return false;
        };
        let links = links_at(slot, place);
        if next != Some(*number) || links.before != before {
            return false;
        }
        before = Some(*number);
        next = links.next;
    }
    next.is_none()
}

#[test]
fn links_give_what_the_walks_give(rt: HostRuntime) -> Result<(), Fail> {
    let alloc = rt.alloc();
    for row in &ROWS {
        let pool = pool_of(alloc, row.steps)?;
        for (place, numbers) in [
            (Place::Subject, row.subjects),
            (Place::Predicate, row.predicates),
            (Place::Object, row.objects),
        ] {
            let found = looked_up(alloc, &pool, place, Term::Iri(0))?;
            assert_eq!(rt; found.as_slice(), numbers);
            for number in 0..4 {
                let term = Term::Iri(number);
                let found = looked_up(alloc, &pool, place, term)?;
                let walked: Vec<u32> = walk_at(&pool, place, term).collect(alloc)?;
                assert_eq!(rt; walked.as_slice(), found.as_slice());
                assert!(rt;
                    are_linked(&pool, place, found.as_slice()),
                    "{place:?} {number}"
                );
            }
        }
    }
    Ok(())
}
