// A type of document 01; Set842 is ID that is equal to 842.
#[derive(Clone, Copy, Debug, PartialEq, Eq, Drop)]
pub enum Kind {
    AN,
    ID,
    Set842,
    N0,
    R,
    DT,
    TM,
}
