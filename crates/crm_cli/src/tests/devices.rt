// Each command over devices of which a call fails.
use super::*;

// A command over the files `a.ttl` and `cert`: its words, what it prints, and how often it calls the shelf.
struct Row {
    words: &'static str,
    file: &'static str,
    cert: &'static str,
    status: Status,
    text: &'static str,
    calls: u32,
}

// Context a is before context b.
const CONTEXTS: &str =
    "@prefix ca: <http://www.cidoc-crm.org/extensions/crmarchaeo/> .\n@prefix ex: <http://e/> .\nex:a a ca:A4_Stratigraphic_Genesis ; <urn:crmtime:AP13-before> ex:b .\nex:b a ca:A4_Stratigraphic_Genesis .\n";

// A person who is an event.
const PERSON: &str =
    "@prefix crm: <http://www.cidoc-crm.org/cidoc-crm/> .\n<http://e/q> a crm:E5_Event , crm:E21_Person .\n";

const CERTIFICATE: &str =
    "crmtime 1 orders\nplace 0/0 0/1 0/1 0/3\nplace 0/0 0/1 0/1 0/3\nplace 0/0 0/1 0/1 0/3\nplace 0/0 0/1 0/2 0/3\nplace 0/0 0/1 0/1 0/3\npair x0 x1 se lt j(o1,j(o0,o2))\npair x0 x1 ss lt j(o1,o0)\npair x0 x1 es le o0 p2\npair x0 x1 ee lt j(o0,o2)\npair x1 x0 se no p3\npair x1 x0 ss no p3\npair x1 x0 es no p4\npair x1 x0 ee no p4\nend\n";

const ROWS: [Row; 15] = [
    Row {
        words: "orders a.ttl",
        file: CONTEXTS,
        cert: "",
        status: Status::Done,
        text: "extents 2\nx0 period <http://e/a>\nx1 period <http://e/b>\ndates 0\norders 3\no0 e0 <= s1 t1\no1 s0 < e0 x0\no2 s1 < e1 x1\n",
        calls: 4,
    },
    Row {
        words: "check a.ttl",
        file: PERSON,
        cert: "",
        status: Status::Findings,
        text: "triples 2\nfault t0 at 68 C2\nfault t1 at 83 C2\nfaults 2\n",
        calls: 4,
    },
    Row {
        words: "reason a.ttl",
        file: CONTEXTS,
        cert: "",
        status: Status::Done,
        text: "triples 3\nfaults 0\nextents 2\nx0 period <http://e/a>\nx1 period <http://e/b>\ndates 0\norders 3\no0 e0 <= s1 t1\no1 s0 < e0 x0\no2 s1 < e1 x1\nconsistent\nplacing plain s0=0/0 e0=0/1 s1=0/1 e1=0/3\nP173 P174 x0 x1 by o1 o0 o2\nP175 P176 x0 x1 by o1 o0\nP182 x0 x1 by o0\nP184 P185 x0 x1 by o0 o2\nplacing s0 s0=0/0 e0=0/1 s1=0/1 e1=0/3\nplacing e0 s0=0/0 e0=0/1 s1=0/1 e1=0/3\nplacing s1 s0=0/0 e0=0/1 s1=0/2 e1=0/3\nplacing e1 s0=0/0 e0=0/1 s1=0/1 e1=0/3\nrelations 7\n",
        calls: 4,
    },
    Row {
        words: "explain a.ttl http://e/a P182 http://e/b",
        file: CONTEXTS,
        cert: "",
        status: Status::Done,
        text: "x0 period <http://e/a>\nx1 period <http://e/b>\nholds P182 by o0\no0 e0 <= s1 t1\n",
        calls: 4,
    },
    Row {
        words: "convert --base http://h/ a.ttl",
        file: PERSON,
        cert: "",
        status: Status::Done,
        text: "<http://e/q> <http://www.w3.org/1999/02/22-rdf-syntax-ns#type> <http://www.cidoc-crm.org/cidoc-crm/E5_Event> .\n<http://e/q> <http://www.w3.org/1999/02/22-rdf-syntax-ns#type> <http://www.cidoc-crm.org/cidoc-crm/E21_Person> .\n",
        calls: 4,
    },
    Row {
        words: "matrix a.ttl",
        file: CONTEXTS,
        cert: "",
        status: Status::Done,
        text: "extents 2\nx0 period <http://e/a>\nx1 period <http://e/b>\ncells 2\nc0 level 0 x0\nc1 level 1 x1\ncovers 1\nc0 c1\n",
        calls: 4,
    },
    Row {
        words: "certify orders a.ttl",
        file: CONTEXTS,
        cert: "",
        status: Status::Done,
        text: "crmtime 2 orders\nplace 0/0 0/1 0/1 0/3\nplace 0/0 0/1 0/1 0/3\nplace 0/0 0/1 0/1 0/3\nplace 0/0 0/1 0/2 0/3\nplace 0/0 0/1 0/1 0/3\nlet j(o1,o0)\nlet j(l0,o2)\npair x0 x1 se lt l1\npair x0 x1 ss lt l0\npair x0 x1 es le o0 p2\nlet j(o0,o2)\npair x0 x1 ee lt l2\npair x1 x0 se no p3\npair x1 x0 ss no p3\npair x1 x0 es no p4\npair x1 x0 ee no p4\nend\n",
        calls: 4,
    },
    Row {
        words: "certify classes a.ttl",
        file: PERSON,
        cert: "",
        status: Status::Done,
        text: "crmtime 1 classes\nclass t0 t1 E2 E77 j(E5.E4,E4.E2) j(E21.E39,E39.E77)\nclass t1 t0 E77 E2 j(E21.E39,E39.E77) j(E5.E4,E4.E2)\nend\n",
        calls: 4,
    },
    Row {
        words: "certify matrix a.ttl",
        file: CONTEXTS,
        cert: "",
        status: Status::Done,
        text: "crmtime 1 matrix\ncover x0 x1 o0\nwalk x0 x1 c0\nend\n",
        calls: 4,
    },
    Row {
        words: "verify a.ttl cert",
        file: CONTEXTS,
        cert: CERTIFICATE,
        status: Status::Done,
        text: "verified consistent\n",
        calls: 7,
    },
    Row {
        words: "sample 1",
        file: "",
        cert: "",
        status: Status::Done,
        text: "sample 1\ntriples 4\nfaults 0\nextents 2\ndates 2\norders 9\nconsistent\nrelations 0\ncells 1\ncovers 0\nlevels 1\n",
        calls: 0,
    },
    Row {
        words: "verify a.ttl other",
        file: CONTEXTS,
        cert: "",
        status: Status::ReadFault,
        text: "read fault other\n",
        calls: 4,
    },
    Row {
        words: "explain a.ttl http://e/a P182 http://e/z",
        file: CONTEXTS,
        cert: "",
        status: Status::Usage,
        text: "no period http://e/z\n",
        calls: 4,
    },
    Row {
        words: "check a.ttl",
        file: "x",
        cert: "",
        status: Status::Refused,
        text: "refused G1 at 0\n",
        calls: 4,
    },
    Row {
        words: "check",
        file: "",
        cert: "",
        status: Status::Usage,
        text: "usage: crm_cli COMMAND [--base IRI] WORDS\n",
        calls: 0,
    },
];

// A file of two windows: the text, and blanks behind it.
fn two_windows(alloc: Global, text: &str) -> Result<String, AllocError> {
    let mut file = String::from_str(alloc, text)?;
    for _ in 0..64 {
        file.push_str("                                                                \n")?;
    }
    Ok(file)
}

fn shelf_of(alloc: Global, file: &str, cert: &str, fails: Numbers) -> Result<MemShelf, AllocError> {
    let mut files = FileList::new(alloc);
    push_file(alloc, &mut files, "a.ttl", file)?;
    push_file(alloc, &mut files, "cert", cert)?;
    Ok(MemShelf::new(files, fails))
}

// Runs the words, which blanks part.
fn run_words(
    alloc: Global,
    words: &str,
    shelf: &mut MemShelf,
    out: &mut MemSink,
) -> Result<Status, AllocError> {
    let mut given = Vec::new(alloc);
    for word in words.split(' ') {
        given.push(String::from_str(alloc, word)?)?;
    }
    Ok(run(alloc, given.as_slice(), shelf, out))
}

// What is said where a call on the shelf fails: the line of the file whose call it was.
fn fault_line(call: u32) -> &'static str {
    if call < 4 {
        "read fault a.ttl\n"
    } else {
        "read fault cert\n"
    }
}

#[test]
fn a_read_fault_names_its_file(rt: HostRuntime) -> Result<(), Fail> {
    let alloc = rt.alloc();
    for row in &ROWS {
        let file = two_windows(alloc, row.file)?;
        for call in 0..=row.calls {
            let mut shelf = shelf_of(alloc, file.as_str(), row.cert, only(alloc, call)?)?;
            let mut out = MemSink::new(alloc, 4096, 7, Numbers::new(alloc))?;
            let (ends, says) = if call < row.calls {
                (Status::ReadFault, fault_line(call))
            } else {
                (row.status, row.text)
            };
            let status = run_words(alloc, row.words, &mut shelf, &mut out)?;
            assert_eq!(rt; status, ends, "{} at call {call}", row.words);
            assert_eq!(rt; out.written(), says.as_bytes());
        }
    }
    Ok(())
}

// A sink with room for so many bytes, and one to which so many single bytes are written before a write fails.
#[test]
fn a_write_fault_keeps_what_was_written(rt: HostRuntime) -> Result<(), Fail> {
    let alloc = rt.alloc();
    for row in &ROWS {
        let text = row.text.as_bytes();
        for count in 0..=text.len() {
            let ends = if count < text.len() {
                Status::WriteFault
            } else {
                row.status
            };
            let full = MemSink::new(alloc, count, 3, Numbers::new(alloc))?;
            let failing = MemSink::new(alloc, 4096, 1, only(alloc, u32::try_from(count)?)?)?;
            for mut out in [full, failing] {
                let mut shelf = shelf_of(alloc, row.file, row.cert, Numbers::new(alloc))?;
                let status = run_words(alloc, row.words, &mut shelf, &mut out)?;
                assert_eq!(rt; status, ends, "{} after {count} bytes", row.words);
                assert_eq!(rt; out.written(), &text[..count]);
            }
        }
    }
    Ok(())
}

// The same command twice over the same devices: which calls fail, and the room of the sink.
#[test]
fn calls_are_counted_on_over_two_commands(rt: HostRuntime) -> Result<(), Fail> {
    let alloc = rt.alloc();
    for (read, write, room, first, second, text) in [
        (
            4,
            99,
            99,
            Status::Done,
            Status::ReadFault,
            "triples 3\nfaults 0\nread fault a.ttl\n",
        ),
        (
            1,
            99,
            99,
            Status::ReadFault,
            Status::Done,
            "read fault a.ttl\ntriples 3\nfaults 0\n",
        ),
        (
            99,
            20,
            99,
            Status::Done,
            Status::WriteFault,
            "triples 3\nfaults 0\nt",
        ),
        (
            99,
            0,
            99,
            Status::WriteFault,
            Status::Done,
            "triples 3\nfaults 0\n",
        ),
        (
            99,
            99,
            25,
            Status::Done,
            Status::WriteFault,
            "triples 3\nfaults 0\ntriple",
        ),
        (99, 99, 5, Status::WriteFault, Status::WriteFault, "tripl"),
    ] {
        let mut shelf = shelf_of(alloc, CONTEXTS, "", only(alloc, read)?)?;
        let mut out = MemSink::new(alloc, room, 1, only(alloc, write)?)?;
        for status in [first, second] {
            assert_eq!(rt;
                run_words(alloc, "check a.ttl", &mut shelf, &mut out)?,
                status
            );
        }
        assert_eq!(rt; out.written(), text.as_bytes());
    }
    Ok(())
}
