// What a certificate is about.

/// What a certificate shows of a file.
#[derive(Clone, Copy, PartialEq, Eq, Debug)]
pub enum CertKind {
    /// What follows between any two periods, and placings that break what doesn't; or the first cycle.
    Orders,
    /// That the classes of each subject with a fault C2 share no instance.
    Classes,
    /// The covers of the matrix, and the walk along covers between any two cells of which one is before the other.
    Matrix,
}
