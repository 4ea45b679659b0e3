/// A kind of call on a name that can be made to fail.
#[derive(Clone, Copy, Debug, PartialEq, Eq)]
pub enum FailCall {
    Open,
    Create,
    Read,
    Write,
    Finish,
}
