// The texts, each as it is printed. The forms stand in the order of the commands, what they print behind them; a page tells
// of one command.

/// All forms of words.
pub(crate) const FORMS: &str = "\
usage: crm_cli COMMAND [--base IRI] WORDS

orders FILE            the extents, the dates, the orders
check FILE             the faulty triples
reason FILE            both, then what follows, with reasons and placings
explain FILE A CODE B  whether one primitive follows, and why, or why not
conflicts FILE         all contradictions, and statements that could be wrong
bounds FILE            the dates around each start and end, with reasons
dates FILE             the dates of the calendar around each period
when FILE DATE         the periods under way at an instant: surely, never, maybe
allen FILE             the possible relations of each two periods
allen FILE A B         the possible relations of A and B, each with a placing
legacy FILE            the triples with today's relations for P114 to P120
join REPORT FILE ..    a report on 2 to 16 files as one
lines FILE             the triples as canonical N-Triples, with line and column
matrix FILE            the Harris matrix: cells, their levels and their covers
certify KIND FILE      a certificate; KIND is orders, classes or matrix
verify FILE CERT       whether the file CERT certifies FILE
convert FILE           the triples as canonical N-Triples
sample N               counts over generated records of N contexts
help                   the forms of words of all commands
help COMMAND           the forms of one command, what it prints, how it ends
version                the version, and the kit that it is proved with

A FILE whose name ends with `.nt` is N-Triples, every other one is Turtle, and
`-` is standard input. `--base IRI`, the base of Turtle files, may stand right
behind each command that reads a file.

Status 0: the report is whole.
Status 1: the report is whole, and tells of a fault or a contradiction.
Status 2: a file is refused, with a code and a place or a count.
Status 3: the words have no form of these.
Status 4: a file can't be read.
Status 5: standard output took no more.
Status 6: there was no memory left.
";

/// The page of `orders`.
pub(crate) const ORDERS: &str = "\
crm_cli orders [--base IRI] FILE

Prints the extents, which are what has a start and an end, the dates, and the
orders between starts, ends and dates that the file states.

Status 0: the report is whole.
Status 2: the file is refused.
";

/// The page of `check`.
pub(crate) const CHECK: &str = "\
crm_cli check [--base IRI] FILE

Prints the triples that misuse a class, a property or a date, by number and
place, and their count.

Status 0: the report is whole.
Status 1: there is a fault.
Status 2: the file is refused.
";

/// The page of `reason`.
pub(crate) const REASON: &str = "\
crm_cli reason [--base IRI] FILE

Prints the text of `check`, that of `orders`, and then a cycle of orders that no
placing satisfies, or each primitive that follows between two periods, with the
orders that show it, and the placings that break the others.

Status 0: the report is whole.
Status 1: there is a fault, or the orders are inconsistent.
Status 2: the file is refused.
";

/// The page of `explain`.
pub(crate) const EXPLAIN: &str = "\
crm_cli explain [--base IRI] FILE A CODE B

Prints whether the primitive CODE, one of P173 to P176 and P182 to P185, follows
from the period A to the period B: the orders that show it, or a placing in
which it is false. A and B are IRIs, or `_:bN` for the blank node N.

Status 0: the report is whole.
Status 1: the primitive doesn't follow, or the orders are inconsistent.
Status 2: the file is refused.
Status 3: A or B is no period of the file, or the words have no such form.
";

/// The page of `conflicts`.
pub(crate) const CONFLICTS: &str = "\
crm_cli conflicts [--base IRI] FILE

Prints the text of `orders`, and then each tangle of orders that contradict one
another with its shortest cycle, and the suspects: each a triple that alone may
be wrong.

Status 0: the report is whole.
Status 1: the orders are inconsistent.
Status 2: the file is refused.
";

/// The page of `bounds`.
pub(crate) const BOUNDS: &str = "\
crm_cli bounds [--base IRI] FILE

Prints the text of `orders`, and then of each start and end the last date that
it comes after and the first that it comes before, with the orders that show it,
and a placing that delays it.

Status 0: the report is whole.
Status 1: the orders are inconsistent.
Status 2: the file is refused.
";

/// The page of `dates`.
pub(crate) const DATES: &str = "\
crm_cli dates [--base IRI] FILE

Prints of each period the dates of the calendar between which it starts, and
those between which it ends, in UTC; or a cycle of orders that no placing
satisfies.

Status 0: the report is whole.
Status 1: the orders are inconsistent.
Status 2: the file is refused.
";

/// The page of `when`.
pub(crate) const WHEN: &str = "\
crm_cli when [--base IRI] FILE DATE

Prints the extents, and of each period whether it is under way at the first
instant of DATE, as 1401, 1401-06 or 1401-06-15T12:00:00Z: surely, never, or
maybe, with a placing in which it is and one in which it is not.

Status 0: the report is whole.
Status 1: the orders are inconsistent.
Status 2: the file is refused.
";

/// The page of `allen`.
pub(crate) const ALLEN: &str = "\
crm_cli allen [--base IRI] FILE
crm_cli allen [--base IRI] FILE A B

Prints of each two periods, or of A and B, which of Allen's thirteen relations
some placing has; of A and B with such a placing each. A and B are IRIs, or
`_:bN` for the blank node N.

Status 0: the report is whole.
Status 1: the orders are inconsistent.
Status 2: the file is refused.
Status 3: A or B is no period of the file, or the words have no such form.
";

/// The page of `legacy`.
pub(crate) const LEGACY: &str = "\
crm_cli legacy [--base IRI] FILE

Prints the triples as canonical N-Triples, with those of today's properties in
place of each that has one of P114 to P120.

Status 0: the report is whole.
Status 2: the file is refused.
";

/// The page of `join`.
pub(crate) const JOIN: &str = "\
crm_cli join [--base IRI] REPORT FILE ..

Prints what REPORT, one of check, orders, reason and convert, prints of one file
with the distinct triples of 2 to 16 files.

Status 0: the report is whole.
Status 1: as of REPORT over one file.
Status 2: a file is refused, or all of them together.
";

/// The page of `lines`.
pub(crate) const LINES: &str = "\
crm_cli lines [--base IRI] FILE

Prints the triples as canonical N-Triples, each behind its number and the line
and column at which its object begins.

Status 0: the report is whole.
Status 2: the file is refused.
";

/// The page of `matrix`.
pub(crate) const MATRIX: &str = "\
crm_cli matrix [--base IRI] FILE

Prints the extents, the units that were produced, and the Harris matrix: the
cells with their levels and periods, and which lies right above which.

Status 0: the report is whole.
Status 1: the orders are inconsistent.
Status 2: the file is refused.
";

/// The page of `certify`.
pub(crate) const CERTIFY: &str = "\
crm_cli certify [--base IRI] KIND FILE

Prints a certificate, which can be checked without this program, of what follows
between the periods of FILE (KIND orders), of its faults C2 (classes), or of its
Harris matrix (matrix).

Status 0: the report is whole.
Status 1: with orders or matrix, the orders are inconsistent.
Status 2: the file is refused.
";

/// The page of `verify`.
pub(crate) const VERIFY: &str = "\
crm_cli verify [--base IRI] FILE CERT

Prints what the certificate CERT shows of FILE, or the code and the place for
which it is refused.

Status 0: the report is whole.
Status 1: the certificate is accepted and holds a cycle.
Status 2: the file or the certificate is refused.
";

/// The page of `convert`.
pub(crate) const CONVERT: &str = "\
crm_cli convert [--base IRI] FILE

Prints the triples as canonical N-Triples, one a line, without repetition.

Status 0: the report is whole.
Status 2: the file is refused.
";

/// The page of `sample`.
pub(crate) const SAMPLE: &str = "\
crm_cli sample N

Prints what is counted over records that the program makes itself, of N
contexts. N is 1 to 999, without leading zero.

Status 0: the report is whole.
";

/// The page of `help`.
pub(crate) const HELP: &str = "\
crm_cli help
crm_cli help COMMAND

Prints the forms of words of all commands, or those of COMMAND with what it
prints and how it ends.

Status 0: the report is whole.
";

/// The page of `version`.
pub(crate) const VERSION: &str = "\
crm_cli version

Prints the version of the program, and the kit with which its proofs were
checked.

Status 0: the report is whole.
";

/// The version, and the kit that `rt version` tells.
pub(crate) const VERSION_LINES: &str = "\
crm_cli 1.0.0
proved with rattle-kit-13f logic dac8208d650f15bf
";
